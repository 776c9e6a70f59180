use crate::link::Link;
use slab::Slab;

/// The rows of a list in order. From [`IndexLists::rows`](crate::IndexLists::rows).
#[derive(Drop)]
pub struct Walk<'a, R> {
    pub(crate) links: &'a Slab<Link<R>>,
    pub(crate) at: Option<usize>,
    // No more rows than this are still to come.
    pub(crate) most: usize,
}

impl<'a, R> Iterator for Walk<'a, R> {
    ghost use Rattle.std.specs.Iterator.{YieldsFirstBy, item_count};
    ghost use Rattle.index_lists.specs.Walks.{rows_left};

    type Item = &'a R;

    ghost next_gives = { YieldsFirstBy (λ item. item.now) rows_left };

    ghost remaining = { item_count rows_left };

    fn next(&mut self) -> Option<&'a R> {
        if self.most == 0 {
            return None;
        }
        let place = self.at?;
        let link = self.links.get(place)?;
        self.at = link.after;
        self.most -= 1;
        Some(&link.row)
    }
}
