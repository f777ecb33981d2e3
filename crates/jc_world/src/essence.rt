//! A world's next outcomes depend on its essence alone: worlds that differ only in the rest stay alike.
ghost use Rattle.jc_world.specs.Alike.{WorldsGoOnAlike};
ghost use Rattle.jc_world.specs.Essence.{EssencesTell};

/// Two worlds are alike if they differ only in their past events, and these agree in what still counts: how many events each stripe
/// has, its order of use, and the answers that its joiners haven't picked up. Then whatever the one may show of a list of events, the
/// other may show too, with the same places, and the worlds in which both end are alike again.
///
/// It has no premise: also what the first does when an allocation fails the other may do. So who looks for all that can be shown has
/// to follow only one of several worlds that are alike.
pub fn worlds_go_on_alike()
    ensures { WorldsGoOnAlike }
{}

/// Worlds with the same essence are alike. A world's essence is the world without its order of events and without the openings and
/// histories of its stripes; in their place it has for each stripe the entries in their order of use, the number of events, and the
/// event that answers each joiner.
pub fn essences_tell()
    ensures { EssencesTell }
{}
