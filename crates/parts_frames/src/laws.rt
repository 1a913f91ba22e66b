// What the parts of a centre that stands for a trail are. The law is a function with nothing to do, whose contract is
// the law.
ghost use Rattle.std.specs.Prelude.{◌⊎◌, List};
ghost use Rattle.dc_talk.specs.Entries.{Entry};
ghost use Rattle.dc_talk.specs.Answers.{History};
ghost use Rattle.centre_parts.specs.declared.part.CentreParts.{CentreParts};
ghost use Rattle.centre_parts.specs.Conditions.{MeetsAll};
ghost use Rattle.dc_centre.specs.Centre.{CentreView, StandsFor};
ghost use Rattle.dc_centre.specs.Parts.{ArePartsOf};
ghost use Rattle.parts_codec.specs.Plain.{plain_centre};
ghost use Rattle.parts_frames.specs.Ranges.{IsRangedCentre};
ghost use Rattle.parts_frames.specs.Far.{HasFarRecord};

/// The parts of a centre that stands for a history have their numbers in range, unless a record of the centre has more
/// hops than a delivery may have.
pub fn law_ranged()
    ensures { (c : CentreView) (trail : List Entry) (parts : CentreParts) → History c.settings trail → StandsFor c trail → MeetsAll parts → ArePartsOf c parts
        → HasFarRecord c.settings trail ⊎ IsRangedCentre (plain_centre parts) }
{}
