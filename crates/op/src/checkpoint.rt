//! Checkpoints, as the public surface gives them (-1 for none) and as contracts count them.
ghost use Rattle.std.specs.Prelude.{◌≡◌, ◌≤◌, ◌^◌};
ghost use Rattle.op.specs.Checkpoint.{known, checkpoint_of};

/// How many operations a checkpoint counts.
pub fn count(checkpoint: i64) -> u64
    ensures counted { result ≡ known checkpoint }
    ensures small { result ≤ 2 ^ 63 }
{
    if checkpoint < 0 {
        0
    } else {
        checkpoint as u64 + 1
    }
}

/// The checkpoint that counts this many operations.
pub fn from_count(count: u64) -> i64
    requires { count ≤ 2 ^ 63 }
    ensures { result ≡ checkpoint_of count }
{
    if count == 0 { -1 } else { (count - 1) as i64 }
}
