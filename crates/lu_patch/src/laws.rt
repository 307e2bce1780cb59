//! The laws of patches, for every patch and object.
//!
//! These functions do nothing: each carries laws to a caller's proof.

ghost use Rattle.lu_patch.specs.SeenLaws.{ReadsWhatIsSeen, ReadsWhatIsKnown, SizeIsSeen, WritesWhatIsSeen, CutsWhatIsSeen};
ghost use Rattle.lu_patch.specs.WriteBackLaws.{FlushIsUnseen, FlushIfChanged, FlushLowers, FlushesEnd, FlushesWriteWhatIsSeen};
ghost use Rattle.lu_patch.specs.ChangeLaws.{UntouchedLands, UnsentStays, WrittenStays, CutLands, OtherCutStays};

/// A patch's reads and its size are those of the object after the cut and then the bytes, and a client's own changes
/// act on that as they act on an object.
pub fn seeing()
    ensures reads { ReadsWhatIsSeen }
    ensures known { ReadsWhatIsKnown }
    ensures size { SizeIsSeen }
    ensures writes { WritesWhatIsSeen }
    ensures cuts { CutsWhatIsSeen }
{}

/// A flush that is applied and acknowledged leaves what is seen, and repeated flushes end with the object as it was
/// seen.
pub fn writing_back()
    ensures unseen { FlushIsUnseen }
    ensures changed { FlushIfChanged }
    ensures lowers { FlushLowers }
    ensures end { FlushesEnd }
    ensures seen { FlushesWriteWhatIsSeen }
{}

/// An answer takes away what flies and wasn't touched since, by event and not by value.
pub fn landing()
    ensures untouched { UntouchedLands }
    ensures unsent { UnsentStays }
    ensures written { WrittenStays }
    ensures cut { CutLands }
    ensures other { OtherCutStays }
{}
