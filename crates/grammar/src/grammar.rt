ghost use Rattle.std.specs.Prelude.{◌≡◌};
ghost use Rattle.form.specs.Form.{Form, holding};

use form::expr::Expr;
use form::rules::Rules;

// A checked grammar. Its type says that it has the form, so only what is proved to have it is ever one.
#[derive(Drop)]
pub struct Grammar {
    // the bytes that its text expressions cut their texts from
    pub text: Vec<u8>,
    // its expressions, by record number
    pub exprs: Vec<Expr>,
    // the record that is each rule's body
    pub rules: Vec<u16>,
    ghost form: { ∥ Form (holding text.items exprs.items rules.items) ∥₁ },
}

impl Grammar {
    // Its rules: its expressions with the bodies of its rules.
    pub fn rules(&self) -> Rules<'_>
        ensures exprs { result.exprs.now ≡ self.now.exprs.items }
        ensures bodies { result.bodies.now ≡ self.now.rules.items }
    {
        Rules {
            exprs: &self.exprs,
            bodies: &self.rules,
        }
    }
}
