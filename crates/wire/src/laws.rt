//! Worked rows, that the definitions of the contracts give what they should.
ghost use Rattle.wire.specs.Rows.{RequestRows};

/// The requests that stand whole in some inputs.
pub fn request_rows()
    ensures { RequestRows }
{}
