// The law of scripts: a function with nothing to do, whose contract is the law.
ghost use Rattle.std.specs.Prelude.{◌≡◌, ℕ, List, Ok};
ghost use Rattle.script_core.specs.declared.script.Script.{Script};
ghost use Rattle.script_core.specs.Scripts.{IsInRange};
ghost use Rattle.script_reader.specs.Scripts.{script_read};

/// Whatever bytes are a script, its numbers are in their ranges, and each of its sections is one step, or a phase with
/// steps that may stand in one.
pub fn law_script_in_range()
    ensures { (bytes : List ℕ) (script : Script) → script_read bytes ≡ Ok script → IsInRange script }
{}
