// How fusions and buffers grow, and what fetches find.
ghost use Rattle.cy_fuse.specs.Laws.{FusionsGrow, FusionsAreFew, CachesFill, CachesKeep};
ghost use Rattle.cy_fuse.specs.Laws.{FetchesFind, FetchesOverflow};

/// One more arrival leaves the tuples that were made and adds what it is joined to, so there are
/// never more tuples than arrivals.
pub fn fusions_grow()
    ensures grow { FusionsGrow }
    ensures few { FusionsAreFew }
{}

/// A buffer keeps the last of all items that were filled, with their numbers.
pub fn caches_keep_the_last<T: Copy>()
    ensures fill { CachesFill T }
    ensures keep { CachesKeep T }
{}

/// A fetch finds an item that is kept, from its index on: the newest at first, and then that of its
/// index where it is kept. Where that isn't kept any more it is the newest, or the oldest that is.
#[inline(always)]
pub fn fetches_find()
    ensures find { FetchesFind }
    ensures overflow { FetchesOverflow }
{}
