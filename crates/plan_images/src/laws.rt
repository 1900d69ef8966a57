ghost use Rattle.plan_images.specs.Laws.{AlikeSpansGrowAlike};

/// That spans whose bytes a rule makes alike are made of the same pieces. It does nothing.
pub fn alike_spans_grow_alike()
    ensures { AlikeSpansGrowAlike }
{}
