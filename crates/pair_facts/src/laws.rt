//! Laws of pairs at fresh and own bases, without code.

ghost use Rattle.pair_facts.specs.Laws.{BasesAreOwn, FreshWithBase};

/// The law that a named base has itself as its base, wherever a pair with it stands.
pub fn bases_are_own()
    ensures { BasesAreOwn }
{}

/// The law that a pointer is fresh wherever a pair of it stands.
pub fn fresh_with_base()
    ensures { FreshWithBase }
{}
