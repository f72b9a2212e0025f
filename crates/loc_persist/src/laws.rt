//! Laws of versions, as calls that do no work: their contracts are the laws.
ghost use Rattle.loc_persist.specs.ByNumber.{RowsByNumberRead};

/// From the rows by number each sealed version is read as its list, and with k items none of its paths has d nodes with 2^d > (k + 1)^2.
pub fn rows_by_number()
    ensures { RowsByNumberRead }
{}
