//! A list of beats of any line.
ghost use Rattle.std.specs.Prelude.{◌≡◌, IfOk, OnErr, OnOk};
ghost use Rattle.line.specs.Rules.{rule_after_all};

use crate::line::Line;
use crate::status::{Reply, Status};
use std::alloc::{AllocError, Global};

/// Shows a line the statuses in order, a beat each, and gives its replies. For want of memory nothing is shown.
pub fn play<L: Line>(
    line: &mut L,
    statuses: &[Status],
    heap: Global,
) -> Result<Vec<Reply>, AllocError>
    ensures replies { IfOk result (λ v. v.items ≡ L.replies line.old statuses.now) }
    ensures rule { OnOk result (L.replies line.new ≡ rule_after_all (L.replies line.old) statuses.now) }
    ensures untouched { OnErr result (line.new ≡ line.old) }
{
    let mut replies = Vec::with_capacity(heap, statuses.len())?;
    for status in statuses {
        replies.push_reserved(line.beat(*status));
    }
    Ok(replies)
}
