// The law of made scripts: a function with nothing to do, whose contract is the law.
ghost use Rattle.std.specs.Prelude.{◌≡◌, ℕ, All, Ok, length, map};
ghost use Rattle.script_core.specs.Lines.{lines_of};
ghost use Rattle.script_reader.specs.Scripts.{script_read};
ghost use Rattle.load_maker.specs.Lines.{line_text};
ghost use Rattle.load_maker.specs.Made.{made_lines, made_script};
ghost use Rattle.load_maker.specs.MadeScripts.{script_made};
ghost use Rattle.load_maker.specs.Rows.{IsRead};

/// A made script is one of the grammar of scripts. Its bytes are its lines (`lines`), 31,441 of them (`count`), and each is
/// read as what it means, wherever it stands behind the header (`read`). Together they are a script: its settings, five
/// phases with just their steps, and the steps behind these (`script`).
pub fn law_made_script()
    ensures lines { (num : ℕ) → lines_of (made_script num) ≡ map line_text (made_lines num) }
    ensures count { (num : ℕ) → length (made_lines num) ≡ 31441 }
    ensures read { (num : ℕ) → All IsRead (made_lines num) }
    ensures script { (num : ℕ) → script_read (made_script num) ≡ Ok (script_made num) }
{}
