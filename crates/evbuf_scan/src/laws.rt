// What the definitions of this crate come to, in words of their own.
ghost use Rattle.evbuf_scan.specs.Place.{PlaceIsFirst};

/// A place that is found passes and no earlier one does; none is found only where none passes.
///
/// Own.
pub fn places_are_first()
    ensures { PlaceIsFirst }
{}
