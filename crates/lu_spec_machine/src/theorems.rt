//! The laws. Each function does nothing: its contract is a theorem over the definitions of `specs/`.

ghost use Rattle.lu_spec_machine.specs.ByteLaws.{ObjectPuts, ObjectCuts, GetReads, SizeIsEnd, WritePuts, CutEnds, PiecePuts, PieceCuts, PiecesArePlain};
ghost use Rattle.lu_spec_machine.specs.Covered.{LocksCover, AboveIsNew};
ghost use Rattle.lu_spec_machine.specs.Fits.{AnswersFit};
ghost use Rattle.lu_spec_machine.specs.Laws.{TouchedDecide, OthersStay, MadeHasNumber, NewFromOld, RefusalsStay, UnchangedStay, TransactionsGrantNothing, ReadingsChangeNothing, AlwaysMakeTransactions, MachineIsTable, PassedIsRefused, FlushesStay, PiecesReach, NewLayouts, NumberIsFree, ForgetDropsOpens, LeadsStay, RemovalLaw, RemovalAgrees, EarlierAreOlder};
ghost use Rattle.lu_spec_machine.specs.Order.{OrderStays, ListsNames, ByteOrderIsOne};
ghost use Rattle.lu_spec_machine.specs.Paths.{LookupsTell, PathsFollow, ChmodsChange, RenamesChange};
ghost use Rattle.lu_spec_machine.specs.Seen.{RemovalBySeen, TrimmedRemovalBySeen};
ghost use Rattle.lu_spec_machine.specs.Trim.{Unseen, TrimmedRemoval, NamedHaveLinks};

/// The laws of footprints: what an operation on names touches decides all that comes of it.
pub fn footprints()
    ensures touched { TouchedDecide }
    ensures others { OthersStay }
    ensures made { MadeHasNumber }
    ensures written { NewFromOld }
    ensures free { NumberIsFree }
{}

/// Each answer of the table has one of the forms that its operation's row can give.
pub fn answering()
    ensures fits { AnswersFit }
{}

/// Which acts make a transaction, which make none, and what those leave.
pub fn transactions()
    ensures refusals { RefusalsStay }
    ensures unchanged { UnchangedStay }
    ensures grants { TransactionsGrantNothing }
    ensures readings { ReadingsChangeNothing }
    ensures always { AlwaysMakeTransactions }
    ensures chmods { ChmodsChange }
    ensures renames { RenamesChange }
{}

/// A life's opens go, and nothing else.
pub fn forgetting()
    ensures { ForgetDropsOpens }
{}

/// A name leads where it led if Parent of that inode isn't written, in each directory but one of the
/// operation's own number.
pub fn leading()
    ensures { LeadsStay }
{}

/// Transactions can be taken out of a history, where none that stays touched what an earlier one of them
/// wrote: the next operation comes out the same, if it touches nothing that they wrote.
pub fn removal()
    ensures answers { RemovalLaw }
    ensures contents { RemovalAgrees }
    ensures earlier { EarlierAreOlder }
    ensures seen { RemovalBySeen }
{}

/// A file may leave the tree with its last name and its last open: where numbers rise, nobody can tell.
pub fn trimming()
    ensures unseen { Unseen }
    ensures removal { TrimmedRemoval }
    ensures seen { TrimmedRemovalBySeen }
    ensures links { NamedHaveLinks }
{}

/// The lists of a tree stay in order, and a listing has the names that lead somewhere, in the order of
/// their bytes: there is one such list.
pub fn ordering()
    ensures stays { OrderStays }
    ensures names { ListsNames }
    ensures one { ByteOrderIsOne }
{}

/// The stripes of a new file lie on different targets, in turn from the one that its number picks.
pub fn striping()
    ensures { NewLayouts }
{}

/// The plain machine answers by the table, but refuses a transaction whose number was passed before. A flush
/// changes nothing, and a piece changes one object as its operation does.
pub fn machine()
    ensures table { MachineIsTable }
    ensures passed { PassedIsRefused }
    ensures flush { FlushesStay }
    ensures pieces { PiecesReach }
{}

/// The answer to a reading that isn't refused, and the locks that come with it, stay the same after one
/// operation whose number is new in the tree and that writes nothing that those locks guard. A number above
/// all of a past is new there.
pub fn coverage()
    ensures locks { LocksCover }
    ensures new { AboveIsNew }
{}

/// The bytes of an object, offset by offset, and those of a file, position by position through a layout: writes,
/// cuts, and what reaches one object.
pub fn bytes()
    ensures object_put { ObjectPuts }
    ensures object_cut { ObjectCuts }
    ensures object_get { GetReads }
    ensures size { SizeIsEnd }
    ensures write { WritePuts }
    ensures cut { CutEnds }
    ensures put_piece { PiecePuts }
    ensures cut_piece { PieceCuts }
    ensures pieces { PiecesArePlain }
{}

/// What a look-up tells is where the path leads, and where paths lead once an operation is done, under a
/// number that is new in the tree.
pub fn paths()
    ensures lookup { LookupsTell }
    ensures done { PathsFollow }
{}
