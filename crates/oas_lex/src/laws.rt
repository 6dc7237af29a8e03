//! Laws of spelled numbers and of the text of a shot file.
ghost use Rattle.oas_lex.specs.ShotLaws.{RecordNamesShot, TextNamesShots};
ghost use Rattle.oas_lex.specs.SpellingLaws.{UnsignedIsShortest, SignedSpells, SignedIsShortest, NoneBegins, UnsignedReadsBack, SignedReadsBack, OneUnsigned, OneSigned};

/// What the spellings of integers keep. It holds of all numbers and bytes, and costs nothing.
pub fn spelling_laws()
    ensures unsigned_is_shortest { UnsignedIsShortest }
    ensures signed_spells { SignedSpells }
    ensures signed_is_shortest { SignedIsShortest }
    ensures none_begins { NoneBegins }
    ensures unsigned_reads_back { UnsignedReadsBack }
    ensures signed_reads_back { SignedReadsBack }
    ensures one_unsigned { OneUnsigned }
    ensures one_signed { OneSigned }
{}

/// What the text of a shot file keeps: it names its unit, its shots and their pair. It holds of all lists, and costs
/// nothing.
pub fn shot_laws()
    ensures record_names_shot { RecordNamesShot }
    ensures text_names_shots { TextNamesShots }
{}
