// A row behind those that were read.

ghost use Rattle.std.specs.Prelude.{◌≡◌, [], ◌∷◌, ◌++◌, OnOk, IfErr};
ghost use Rattle.loc_spec_index.specs.declared.IndexFault.TheVariants as fault;

use loc_spec_index::IndexFault;

// Puts a row behind the others.
pub(crate) fn keep<T: Drop>(rows: &mut Vec<T>, row: T) -> Result<(), IndexFault>
    ensures ok { OnOk result (rows.new.items ≡ rows.old.items ++ row ∷ []) }
    ensures err { IfErr result (λ f. f ≡ fault.NoMemory) }
{
    match rows.push(row) {
        Ok(()) => Ok(()),
        Err(_) => Err(IndexFault::NoMemory),
    }
}
