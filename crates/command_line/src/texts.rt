// The texts that the program answers words with.
ghost use Rattle.std.specs.Prelude.{◌≡◌, IfOk};
ghost use Rattle.command_line.specs.Texts.{help_text, usage_text, version_text};

use ids_core::NoMemory;
use std::alloc::Global;

/// The line for words of no form.
pub fn usage_line(alloc: Global) -> Result<Vec<u8>, NoMemory>
    ensures { IfOk result (λ text. text.items ≡ usage_text) }
{
    Ok(Vec::from_slice(
        alloc,
        b"usage: swift_sim run|serial [--trail], journal [DIR], recover DIR or make|load NUM\n",
    )?)
}

/// The line for `--version`.
pub fn version_line(alloc: Global) -> Result<Vec<u8>, NoMemory>
    ensures { IfOk result (λ text. text.items ≡ version_text) }
{
    Ok(Vec::from_slice(alloc, b"swift_sim 0.1.0\n")?)
}

// What `--help` tells.
const HELP: &[u8] = b"\
swift_sim plays a script of a geo-replicated object store and prints what its clients see. Clients
commit at once, keep working while a data centre is down, move to another one, and never see an
effect before its cause.

usage:
  swift_sim serial < SCRIPT          plays the script on one thread and prints what its clients see
  swift_sim serial --trail < SCRIPT  and then prints each centre's requests and answers in order, and
                                     the transactions behind each value that was read
  swift_sim run < SCRIPT             plays the script with threads in its phases
  swift_sim run --trail < SCRIPT     and then prints the trails, as serial --trail does
  swift_sim journal < SCRIPT         plays the script and prints what each centre's journal holds
  swift_sim journal DIR < SCRIPT     and writes each centre's journal to new files in the folder DIR
  swift_sim recover DIR              opens the journals in DIR and prints what they hold
  swift_sim make NUM                 prints a script generated from the seed NUM, 1 to 999999999
  swift_sim load NUM                 plays that script with threads and prints its last reads
  swift_sim .. --quiet               shows no progress on the terminal
  swift_sim --help                   prints this text
  swift_sim --version                prints the version

example: this script
  centres 1 k 1
  clients 1
  c1 connect 1
  c1 begin
  c1 add s.cart bread
  c1 read s.cart
  c1 commit
prints
  c1 at 1
  c1 read s.cart {bread}
  c1 commit 1

exit status:
  0  success
  2  invalid command line
  3  invalid script: the output has the first bad line's number and the reason
  4  reading failed
  5  writing failed
  6  out of memory
  7  a journal's files are bad: standard error names the file and the place
  8  a journal's files were not made, read or written
Unless it is 0, standard error says more.

docs/script.md explains scripts; examples/ has some.
";

/// The text for `--help`: the forms of the words, an example, and the statuses.
pub fn help(alloc: Global) -> Result<Vec<u8>, NoMemory>
    ensures { IfOk result (λ text. text.items ≡ help_text) }
{
    Ok(Vec::from_slice(alloc, HELP)?)
}
