// The law of forms. It is a function with nothing to do, whose contract is the law.
ghost use Rattle.std.specs.Prelude.{◌≡◌};
ghost use Rattle.command_line.specs.Forms.{IsForm, spelled};
ghost use Rattle.command_line.specs.declared.form.Form.{Form};

/// Words ask for one thing: two forms that the same words spell are one.
pub fn law_one_form()
    ensures { (f g : Form) → IsForm f → IsForm g → spelled f ≡ spelled g → f ≡ g }
{}
