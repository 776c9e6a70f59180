ghost use Rattle.std.specs.Prelude.{◌≡◌, ℕ, length};
ghost use Rattle.slab.specs.Slab.{get, slab_len};
ghost use Rattle.index_lists.specs.Links.{after_set, before_set, first_set, last_set};

use slab::Slab;

/// A row in its list, with the places before and after it.
#[derive(Drop)]
pub(crate) struct Link<R> {
    pub(crate) list: usize,
    pub(crate) before: Option<usize>,
    pub(crate) after: Option<usize>,
    pub(crate) row: R,
}

/// The first and the last place of a list.
#[derive(Clone, Copy)]
pub(crate) struct Ends {
    pub(crate) first: Option<usize>,
    pub(crate) last: Option<usize>,
}

// Lets a place be followed by another, or the list begin there where nothing is before it.
pub(crate) fn set_after<R>(
    links: &mut Slab<Link<R>>,
    ends: &mut Ends,
    before: Option<usize>,
    after: Option<usize>,
)
    ensures links { (j : ℕ) → get links.new j ≡ after_set before after j (get links.old j) }
    ensures ends { ends.new ≡ first_set before after ends.old }
    ensures count { slab_len links.new ≡ slab_len links.old }
    ensures slots { length links.new.slots ≡ length links.old.slots }
    ensures next { links.new.vacant_key ≡ links.old.vacant_key }
    ensures capacity { links.new.capacity ≡ links.old.capacity }
{
    match before {
        None => ends.first = after,
        Some(place) => {
            if let Some(link) = links.get_mut(place) {
                link.after = after;
            }
        }
    }
}

// Lets a place be preceded by another, or the list end there where nothing is after it.
pub(crate) fn set_before<R>(
    links: &mut Slab<Link<R>>,
    ends: &mut Ends,
    after: Option<usize>,
    before: Option<usize>,
)
    ensures links { (j : ℕ) → get links.new j ≡ before_set after before j (get links.old j) }
    ensures ends { ends.new ≡ last_set after before ends.old }
    ensures count { slab_len links.new ≡ slab_len links.old }
    ensures slots { length links.new.slots ≡ length links.old.slots }
    ensures next { links.new.vacant_key ≡ links.old.vacant_key }
    ensures capacity { links.new.capacity ≡ links.old.capacity }
{
    match after {
        None => ends.last = before,
        Some(place) => {
            if let Some(link) = links.get_mut(place) {
                link.before = before;
            }
        }
    }
}
