//! Laws over the definition of the plan, each the contract of a function that does nothing.
ghost use Rattle.kz_model.specs.Types.Planned.{PlansAreFit};
ghost use Rattle.kz_plan.specs.ShareLaws.{SharesAreWithin, SharesSpend, SharesAreFairest, OneForEach, OneMoreForNext, RestIsUnused};
ghost use Rattle.kz_plan.specs.Laws.{SignaturesRise, SignaturesAreThoseOfTypes, ShufflesKeepAll};
ghost use Rattle.kz_plan.specs.ZoneLaws.{ZonesHaveTheClass, ClassesAreLeast, ElementsHoldTypes, DataZonesAreForData, DataHasItsSubmap, EqualSignaturesShare, DataOfOneClassShares, SharersHaveOneClass, SharersAreOfOneKind};

/// A class deals the signatures of its types that aren't data-only, each once.
pub fn signatures_are_dealt_once()
    ensures rising { SignaturesRise }
    ensures exact { SignaturesAreThoseOfTypes }
    ensures kept { ShufflesKeepAll }
{}

/// The plan of a valid bundle has a zone for each type, and each zone has a chunk that it may have, in a submap.
pub fn plans_are_fit()
    ensures { PlansAreFit }
{}

/// A type's zone has the chunk of the least class whose elements hold the type. It is a data zone, in the submap for
/// data, exactly where the type is data-only.
pub fn types_have_zones_of_their_class()
    ensures class { ZonesHaveTheClass }
    ensures least { ClassesAreLeast }
    ensures holds { ElementsHoldTypes }
    ensures kind { DataZonesAreForData }
    ensures submap { DataHasItsSubmap }
{}

/// Types of one class share a zone where their signatures are equal or both are data-only, and types of two classes or
/// of two kinds never do.
pub fn like_types_share_a_zone()
    ensures signatures { EqualSignaturesShare }
    ensures data_only { DataOfOneClassShares }
    ensures classes { SharersHaveOneClass }
    ensures kinds { SharersAreOfOneKind }
{}

/// A budget is divided as fairly as it can be, and its zones are given one after another.
pub fn shares_are_fair()
    ensures within { SharesAreWithin }
    ensures spent { SharesSpend }
    ensures fairest { SharesAreFairest }
    ensures begins { OneForEach }
    ensures grows { OneMoreForNext }
    ensures ends { RestIsUnused }
{}
