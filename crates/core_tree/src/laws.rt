// Laws of the meaning. Each function does nothing: what it ensures is the law.
ghost use Rattle.core_tree.specs.Bounds.{TicksBound};

/// What the bound on ticks does: a meaning takes no more ticks than its bound, and all of them where it ends for want of
/// one more. A larger bound lengthens the list of events alone, and changes no end but that one.
pub fn ticks_bound()
    ensures { TicksBound }
{}
