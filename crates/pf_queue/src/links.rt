//! The links among tenants, in two tables.

ghost use Rattle.std.specs.Prelude.{◌≡◌, ◌<◌, length};
ghost use Rattle.pf_queue.specs.Links.{at, next_with, next_without, previous_with, previous_without};

/// Takes out a tenant that waits: the one before it and the one after it are linked, and it stands behind itself.
pub(crate) fn unlink(next: &mut Vec<u32>, previous: &mut Vec<u32>, tenant: u32)
    requires of_next { tenant < length next.old.items × at previous.old.items tenant < length next.old.items }
    requires of_previous { tenant < length previous.old.items × at next.old.items tenant < length previous.old.items }
    ensures next { next.new.items ≡ next_without next.old.items previous.old.items tenant }
    ensures previous { previous.new.items ≡ previous_without next.old.items previous.old.items tenant }
{
    let before = previous[tenant as usize];
    let after = next[tenant as usize];
    next[tenant as usize] = tenant;
    next[before as usize] = after;
    previous[after as usize] = before;
}

/// Puts a tenant before the end.
pub(crate) fn link_last(next: &mut Vec<u32>, previous: &mut Vec<u32>, end: u32, tenant: u32)
    requires of_next { tenant < length next.old.items × at previous.old.items end < length next.old.items }
    requires of_previous { tenant < length previous.old.items × end < length previous.old.items }
    ensures next { next.new.items ≡ next_with next.old.items previous.old.items end tenant }
    ensures previous { previous.new.items ≡ previous_with previous.old.items end tenant }
{
    let last = previous[end as usize];
    next[last as usize] = tenant;
    next[tenant as usize] = end;
    previous[tenant as usize] = last;
    previous[end as usize] = tenant;
}
