// The form that `clap` found.
ghost use Rattle.std.specs.Prelude.{◌≡◌, ◌≤◌, ℕ, Bool, Some, None, IfSome, codes, decimal};
ghost use Rattle.std.specs.Option.{option_map};
ghost use Rattle.clap.specs.Words.{first_of, found_of, one_of, rows_of, subcommand_of, subcommand_rows_of};
ghost use Rattle.command_line.specs.Apps.{program_app};
ghost use Rattle.command_line.specs.Forms.{IsCommand, IsForm, flag_text, most_num, spelled};
ghost use Rattle.command_line.specs.declared.form.Form.TheVariants.{Load, Make};

use crate::form::Form;
use crate::num::num_of;
use clap::ArgMatches;

// Whether the rows of `run` or `serial` have the flag.
fn has_trail(rows: &ArgMatches<'_>) -> bool
    ensures { (trail : Bool) → one_of (codes "trail") (rows_of (found_of rows.now)) ≡ Some (flag_text trail) → result ≡ trail }
{
    rows.get_flag("trail")
}

// The number in the rows of `make` or `load`.
fn number(rows: &ArgMatches<'_>) -> Option<u32>
    ensures found { (num : ℕ) → 1 ≤ num → num ≤ most_num
        → first_of (codes "num") (rows_of (found_of rows.now)) ≡ Some (decimal num) → result ≡ Some num }
    ensures range { IfSome result (λ num. (1 ≤ num) × (num ≤ most_num)) }
{
    match rows.get_str("num") {
        Some(word) => num_of(word),
        None => None,
    }
}

// The form `make` with the number, where there is one.
fn make_of(num: Option<u32>) -> Option<Form>
    ensures made { result ≡ option_map Make num }
    ensures known { IfSome num (λ num. (1 ≤ num) × (num ≤ most_num)) → IfSome result IsForm }
{
    match num {
        Some(num) => Some(Form::Make { num }),
        None => None,
    }
}

// The form `load` with the number, where there is one.
fn load_of(num: Option<u32>) -> Option<Form>
    ensures made { result ≡ option_map Load num }
    ensures known { IfSome num (λ num. (1 ≤ num) × (num ≤ most_num)) → IfSome result IsForm }
{
    match num {
        Some(num) => Some(Form::Load { num }),
        None => None,
    }
}

/// The form of the command that was found. Where words that spell a command were read, it is that one, and where no
/// command was found there is none.
pub fn form_in(matches: &ArgMatches<'_>) -> Option<Form>
    ensures found { (form : Form) → IsCommand form → subcommand_rows_of matches.now ≡ subcommand_of program_app (spelled form) → result ≡ Some form }
    ensures none { subcommand_rows_of matches.now ≡ None → result ≡ None }
    ensures known { IfSome result IsForm }
{
    match matches.subcommand() {
        Some((name, rows)) => {
            if name == "run" {
                Some(Form::Run {
                    trail: has_trail(rows),
                })
            } else if name == "serial" {
                Some(Form::Serial {
                    trail: has_trail(rows),
                })
            } else if name == "journal" {
                Some(Form::Journal)
            } else if name == "make" {
                make_of(number(rows))
            } else if name == "load" {
                load_of(number(rows))
            } else {
                None
            }
        }
        None => None,
    }
}
