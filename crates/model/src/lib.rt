// The model has no code to run: its definitions stand in specs/. The function below has the theorems about them for its
// contract, so that the crate is refused without their proofs.
#![tactic(auto)]

ghost use Rattle.std.specs.Prelude.{true, ◌≡◌};
ghost use Rattle.model.specs.Theorems.{Theorems};

pub fn theorems_hold() -> bool
    ensures { (result ≡ true) × Theorems }
{
    true
}
