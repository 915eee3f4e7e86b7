//! How large a queue is, in numbers.
ghost use Rattle.std.specs.Prelude.{◌≡◌};

use crate::queue::{MOST_POSTS, ROOM};

/// The limits of queues are these numbers.
pub fn limits_of_queues()
    ensures room { ROOM ≡ 4_096 }
    ensures posts { MOST_POSTS ≡ 32 }
{}
