ghost use Rattle.std.specs.Prelude.{◌≡◌, ℕ, IfOk};
ghost use Rattle.data_layout.specs.Index.{IsReady};
ghost use Rattle.layout_reading.specs.Numbered.{AreNumbered};
ghost use Rattle.layout_reading.specs.Reading.{first_area};
ghost use Rattle.program_channels.specs.Channels.{HasRecord};
ghost use Rattle.storage_places.specs.Fits.{LayoutFits, area_lengths};
ghost use Rattle.program_meaning.specs.Files.{Closed, disk_at};
ghost use Rattle.seq_files.specs.Disks.{disks};
ghost use Rattle.storage_places.specs.Held.{held, first, lengths, IsWithin};
ghost use Rattle.file_statements.specs.Units.{IsUnitOf};

use super::*;
use cobol_syntax::{Entry, FileEntry, Mode, Operand, Part, Place, Program, Select, Sub, Usage};
use data_layout::{FileUse, Layout, LayoutFault, lay_out};
use decimal_bytes::SignPlace;
use picture::read_picture;
use place_table::Places;
use program_channels::{Channel, Channels};
use seq_files::{Status, Store};
use std::alloc::Global;
use std::test::Fail;
use storage_places::{Storage, layout_fits};
use y2k_base::{AreaId, Bytes, List, Memory, Span};

fn bytes_of(alloc: Global, text: &[u8]) -> Result<Bytes, Memory> {
    let mut bytes = List::new(alloc);
    bytes.append(text)?;
    Ok(bytes)
}

fn entry_of(alloc: Global, name: u8, picture: &[u8]) -> Result<Entry, Memory> {
    Ok(Entry {
        level: 1,
        name: Some(bytes_of(alloc, &[name])?),
        redefines: None,
        occurs: None,
        picture: read_picture(alloc, picture).ok(),
        picture_at: 0,
        usage: Usage::Display,
        sign: SignPlace::Trailing,
        value: None,
        ranges: List::new(alloc),
        at: 0,
    })
}

/// An item, or a part of it from a start on; a start of 0 isn't written.
type Item = (u8, u32, u32);

fn whole(name: u8) -> Item {
    (name, 0, 0)
}

fn place_of(alloc: Global, item: Item) -> Result<Place, Memory> {
    let mut names = List::new(alloc);
    names.push(bytes_of(alloc, &[item.0])?)?;
    let cut = if item.1 == 0 {
        None
    } else {
        Some(Part {
            start: Sub::Number {
                value: item.1,
                at: 0,
            },
            length: Some(Sub::Number {
                value: item.2,
                at: 0,
            }),
        })
    };
    Ok(Place {
        names,
        subs: List::new(alloc),
        cut,
        at: 0,
        end: 1,
    })
}

/// The FD of a file whose records are one of three bytes and one of two.
fn fd(alloc: Global, file: u8, long: u8, short: u8) -> Result<FileEntry, Memory> {
    let mut entries = List::new(alloc);
    entries.push(entry_of(alloc, long, b"X(3)")?)?;
    entries.push(entry_of(alloc, short, b"X(2)")?)?;
    Ok(FileEntry {
        name: bytes_of(alloc, &[file])?,
        contains: None,
        entries,
        at: 0,
    })
}

fn select(alloc: Global, file: u8, status: Option<Place>) -> Result<Select, Memory> {
    Ok(Select {
        name: bytes_of(alloc, &[file])?,
        external: bytes_of(alloc, &[file])?,
        status,
        at: 0,
    })
}

/// The file A has no status item, and the records L and M. The file B has the status item S, and the records P and Q. W
/// has five bytes.
fn program_of(alloc: Global) -> Result<Program, Memory> {
    let mut selects = List::new(alloc);
    selects.push(select(alloc, b'A', None)?)?;
    selects.push(select(alloc, b'B', Some(place_of(alloc, whole(b'S'))?))?)?;
    let mut files = List::new(alloc);
    files.push(fd(alloc, b'A', b'L', b'M')?)?;
    files.push(fd(alloc, b'B', b'P', b'Q')?)?;
    let mut storage = List::new(alloc);
    storage.push(entry_of(alloc, b'S', b"9(2)")?)?;
    storage.push(entry_of(alloc, b'W', b"X(5)")?)?;
    Ok(Program {
        id: List::new(alloc),
        words: List::new(alloc),
        selects,
        files,
        storage,
        paragraphs: List::new(alloc),
    })
}

fn laid_out(alloc: Global, program: &Program) -> Result<Layout, LayoutFault>
    ensures ready { IfOk result IsReady }
    ensures numbered { IfOk result (λ layout. AreNumbered (first_area layout.areas) layout.areas) }
{
    lay_out(alloc, program, AreaId(7))
}

/// The layout of a program, whose rules are kept.
fn fitting_layout(alloc: Global, program: &Program) -> Result<Layout, Memory>
    ensures ready { IfOk result IsReady }
    ensures numbered { IfOk result (λ layout. AreNumbered (first_area layout.areas) layout.areas) }
    ensures fits { IfOk result LayoutFits }
{
    match laid_out(alloc, program) {
        Ok(layout) => {
            if layout_fits(&layout) {
                Ok(layout)
            } else {
                Err(Memory)
            }
        }
        Err(_) => Err(Memory),
    }
}

fn file_use(alloc: Global, file: u8) -> Result<FileUse, Memory>
    ensures { IfOk result (λ file. file.length ≡ 3) }
{
    Ok(FileUse {
        external: bytes_of(alloc, &[file])?,
        name: List::new(alloc),
        length: 3,
        areas: List::new(alloc),
    })
}

/// A store of the files A and B, of which one holds these bytes; the other isn't there.
fn store_of(alloc: Global, file: u32, held: Option<&[u8]>) -> Result<Store, Memory> {
    let mut store = missing_files(alloc)?;
    match held {
        Some(bytes) => {
            if store.record_length(file).is_none() {
                return Err(Memory);
            }
            match store.set(file, bytes)? {
                Ok(()) => Ok(store),
                Err(_) => Err(Memory),
            }
        }
        None => Ok(store),
    }
}

/// A store of two files that aren't there.
fn missing_files(alloc: Global) -> Result<Store, Memory>
    ensures { IfOk result (λ store. (file : ℕ) → (disk_at (disks store) file).opening ≡ Closed) }
{
    let files = [file_use(alloc, b'A')?, file_use(alloc, b'B')?];
    let store = Store::new(alloc, &files)?;
    Ok(store)
}

/// A statement of a case, or none. READ has INTO, if its item has a name, and whether there is an AT END; WRITE has its
/// record, and FROM a text, if there is one.
#[derive(Clone, Copy)]
enum Step {
    Nothing,
    Open(Mode),
    Close,
    Read(Item, bool),
    Write(u8, Option<[u8; 2]>),
}

fn into_of(alloc: Global, item: Item) -> Result<Option<Place>, Memory> {
    if item.0 == 0 {
        return Ok(None);
    }
    Ok(Some(place_of(alloc, item)?))
}

fn from_of(alloc: Global, text: Option<[u8; 2]>) -> Result<Option<Operand>, Memory> {
    match text {
        Some(text) => {
            let bytes = bytes_of(alloc, &text)?;
            Ok(Some(Operand::Text { bytes, at: 0 }))
        }
        None => Ok(None),
    }
}

fn read_into(
    alloc: Global,
    layout: &Layout,
    unit: &mut RunUnit<'_>,
    channel: Channel<'_>,
    into: Item,
    end: bool,
) -> Result<Status, StepFault>
    requires unit { IsUnitOf layout.now unit.old }
    requires channel { HasRecord layout.now channel }
    ensures unit { IsUnitOf layout.now unit.new }
{
    let _layout = layout;
    let into = into_of(alloc, into)?;
    read(alloc, unit, channel, &into, end)
}

fn write_from(
    alloc: Global,
    layout: &Layout,
    unit: &mut RunUnit<'_>,
    channel: Channel<'_>,
    name: u8,
    from: Option<[u8; 2]>,
) -> Result<Status, StepFault>
    requires unit { IsUnitOf layout.now unit.old }
    requires channel { HasRecord layout.now channel }
    ensures unit { IsUnitOf layout.now unit.new }
{
    let from = from_of(alloc, from)?;
    let item = place_of(alloc, whole(name))?;
    let span = span_of(layout, unit, &item)?;
    write_at(alloc, layout, unit, channel, span, &from)
}

fn write_at(
    alloc: Global,
    layout: &Layout,
    unit: &mut RunUnit<'_>,
    channel: Channel<'_>,
    span: Span,
    from: &Option<Operand>,
) -> Result<Status, StepFault>
    requires unit { IsUnitOf layout.now unit.old }
    requires channel { HasRecord layout.now channel }
    requires span { IsWithin (first_area layout.now.areas) (area_lengths layout.now) span }
    ensures unit { IsUnitOf layout.now unit.new }
{
    let _layout = layout;
    write(alloc, unit, channel, span, from)
}

fn open_as(
    alloc: Global,
    layout: &Layout,
    unit: &mut RunUnit<'_>,
    channel: Channel<'_>,
    mode: Mode,
) -> Result<Status, StepFault>
    requires unit { IsUnitOf layout.now unit.old }
    requires channel { HasRecord layout.now channel }
    ensures unit { IsUnitOf layout.now unit.new }
{
    let _layout = layout;
    open(alloc, unit, channel, mode)
}

fn shut(
    alloc: Global,
    layout: &Layout,
    unit: &mut RunUnit<'_>,
    channel: Channel<'_>,
) -> Result<Status, StepFault>
    requires unit { IsUnitOf layout.now unit.old }
    requires channel { HasRecord layout.now channel }
    ensures unit { IsUnitOf layout.now unit.new }
{
    let _layout = layout;
    close(alloc, unit, channel)
}

/// Where a place is.
fn span_of(layout: &Layout, unit: &mut RunUnit<'_>, item: &Place) -> Result<Span, StepFault>
    requires unit { IsUnitOf layout.now unit.old }
    ensures within { IfOk result (IsWithin (first_area layout.now.areas) (area_lengths layout.now)) }
    ensures unit { IsUnitOf layout.now unit.new }
{
    let _layout = layout;
    match unit.places.view(&unit.storage, item) {
        Ok(view) => Ok(view.span),
        Err(_) => Err(StepFault::Memory),
    }
}

fn done(
    alloc: Global,
    layout: &Layout,
    unit: &mut RunUnit<'_>,
    channel: Channel<'_>,
    step: Step,
) -> Result<Status, StepFault>
    requires unit { IsUnitOf layout.now unit.old }
    requires channel { HasRecord layout.now channel }
    ensures unit { IsUnitOf layout.now unit.new }
{
    match step {
        Step::Nothing => Ok(Status::S00),
        Step::Open(mode) => open_as(alloc, layout, unit, channel, mode),
        Step::Close => shut(alloc, layout, unit, channel),
        Step::Read(into, end) => read_into(alloc, layout, unit, channel, into, end),
        Step::Write(name, from) => write_from(alloc, layout, unit, channel, name, from),
    }
}

/// The status of the last of three statements, or the first fault.
fn all_done(
    alloc: Global,
    layout: &Layout,
    unit: &mut RunUnit<'_>,
    channel: Channel<'_>,
    steps: [Step; 3],
) -> Result<Status, StepFault>
    requires unit { IsUnitOf layout.now unit.old }
    requires channel { HasRecord layout.now channel }
    ensures unit { IsUnitOf layout.now unit.new }
{
    done(alloc, layout, unit, channel, steps[0])?;
    done(alloc, layout, unit, channel, steps[1])?;
    let status = done(alloc, layout, unit, channel, steps[2])?;
    Ok(status)
}

/// Sets the bytes of an item, if they are as many.
fn put(
    alloc: Global,
    layout: &Layout,
    unit: &mut RunUnit<'_>,
    name: u8,
    bytes: &[u8],
) -> Result<(), StepFault>
    requires unit { IsUnitOf layout.now unit.old }
    ensures unit { IsUnitOf layout.now unit.new }
{
    let item = place_of(alloc, whole(name))?;
    let span = span_of(layout, unit, &item)?;
    set_if(&mut unit.storage, span, bytes);
    Ok(())
}

/// Sets the bytes of a span of the program, if they are as many.
fn set_if(storage: &mut Storage, span: Span, bytes: &[u8])
    ensures first { first storage.new ≡ first storage.old }
    ensures lengths { lengths (held storage.new) ≡ lengths (held storage.old) }
{
    if storage.bytes(span).is_none() || span.length as usize != bytes.len() {
        return;
    }
    storage.set(span, bytes);
}

/// The bytes of an item.
fn held_at(
    alloc: Global,
    layout: &Layout,
    unit: &mut RunUnit<'_>,
    name: u8,
) -> Result<Bytes, StepFault>
    requires unit { IsUnitOf layout.now unit.old }
{
    let item = place_of(alloc, whole(name))?;
    let span = span_of(layout, unit, &item)?;
    match unit.storage.bytes(span) {
        Some(bytes) => Ok(bytes_of(alloc, bytes)?),
        None => Err(StepFault::Memory),
    }
}

/// How the last of the statements of a case ended, the bytes of an item after it, and what the file holds then.
struct Ended {
    status: Result<Status, StepFault>,
    item: Bytes,
    file: Bytes,
}

impl Drop for Ended {
    fn drop(self) {
        let Ended {
            status: _,
            item: _item,
            file: _file,
        } = self;
    }
}

fn content(alloc: Global, store: &Store, file: u32) -> Result<Bytes, Memory> {
    if store.record_length(file).is_none() {
        return Err(Memory);
    }
    match store.bytes(file) {
        Some(bytes) => bytes_of(alloc, bytes),
        None => Ok(List::new(alloc)),
    }
}

/// Runs a case with these bytes in W and in the records.
fn run_case(
    alloc: Global,
    layout: &Layout,
    unit: &mut RunUnit<'_>,
    channel: Channel<'_>,
    steps: [Step; 3],
    item: u8,
) -> Result<Ended, StepFault>
    requires unit { IsUnitOf layout.now unit.old }
    requires channel { HasRecord layout.now channel }
{
    put(alloc, layout, unit, b'W', b"VWXYZ")?;
    put(alloc, layout, unit, b'L', b"abc")?;
    put(alloc, layout, unit, b'P', b"abc")?;
    let status = all_done(alloc, layout, unit, channel, steps);
    let item = held_at(alloc, layout, unit, item)?;
    let file = content(alloc, &unit.store, channel.file)?;
    Ok(Ended { status, item, file })
}

/// The unit of a program with this layout.
fn unit_of<'a>(alloc: Global, layout: &'a Layout, store: Store) -> Result<RunUnit<'a>, Memory>
    requires ready { IsReady layout.now }
    requires numbered { AreNumbered (first_area layout.now.areas) layout.now.areas }
    requires fits { LayoutFits layout.now }
    ensures unit { IfOk result (IsUnitOf layout.now) }
{
    let storage = Storage::spaces(alloc, layout)?;
    let places = Places::of(alloc, layout);
    Ok(RunUnit {
        places,
        storage,
        store,
    })
}

/// Runs a case for one of the two files, which holds these bytes or isn't there.
fn run_with(
    alloc: Global,
    program: &Program,
    layout: &Layout,
    file: u8,
    held: Option<&[u8]>,
    steps: [Step; 3],
    item: u8,
) -> Result<Ended, StepFault>
    requires ready { IsReady layout.now }
    requires numbered { AreNumbered (first_area layout.now.areas) layout.now.areas }
    requires fits { LayoutFits layout.now }
{
    let files = [file_use(alloc, b'A')?, file_use(alloc, b'B')?];
    let channels = Channels::of(alloc, &files, program, layout)?;
    match channels.find(&[file]) {
        Some(channel) => {
            let store = store_of(alloc, channel.file, held)?;
            let mut unit = unit_of(alloc, layout, store)?;
            let ended = run_case(alloc, layout, &mut unit, channel, steps, item)?;
            Ok(ended)
        }
        None => Err(StepFault::Memory),
    }
}

fn run(
    alloc: Global,
    file: u8,
    held: Option<&[u8]>,
    steps: [Step; 3],
    item: u8,
) -> Result<Ended, StepFault> {
    let program = program_of(alloc)?;
    let layout = fitting_layout(alloc, &program)?;
    let ended = run_with(alloc, &program, &layout, file, held, steps, item)?;
    Ok(ended)
}

/// Whether a case ends so, with these bytes in an item.
fn leaves(case: &Result<Ended, StepFault>, status: Result<Status, StepFault>, item: &[u8]) -> bool {
    match case {
        Ok(ended) => ended.status == status && ended.item.items() == item,
        Err(_) => false,
    }
}

/// Whether the file holds these bytes after a case.
fn holds(case: &Result<Ended, StepFault>, bytes: &[u8]) -> bool {
    match case {
        Ok(ended) => ended.file.items() == bytes,
        Err(_) => false,
    }
}

const NOTHING: Step = Step::Nothing;

const INPUT: Step = Step::Open(Mode::Input);

const OUTPUT: Step = Step::Open(Mode::Output);

const EXTEND: Step = Step::Open(Mode::Extend);

const READ: Step = Step::Read((0, 0, 0), false);

const READ_OR_END: Step = Step::Read((0, 0, 0), true);

#[test]
fn a_status_goes_to_its_item(rt: HostRuntime) -> Result<(), Fail> {
    let write = Step::Write(b'P', None);
    let rows: [(Option<&[u8]>, [Step; 3], Status, &[u8]); 12] = [
        (None, [NOTHING, NOTHING, OUTPUT], Status::S00, b"00"),
        (None, [NOTHING, NOTHING, INPUT], Status::S35, b"35"),
        (None, [NOTHING, NOTHING, EXTEND], Status::S35, b"35"),
        (Some(b""), [NOTHING, INPUT, OUTPUT], Status::S41, b"41"),
        (None, [NOTHING, NOTHING, Step::Close], Status::S42, b"42"),
        (Some(b""), [NOTHING, INPUT, Step::Close], Status::S00, b"00"),
        (Some(b""), [NOTHING, INPUT, READ], Status::S10, b"10"),
        (Some(b""), [INPUT, READ, READ], Status::S46, b"46"),
        (Some(b"ABC"), [NOTHING, NOTHING, READ], Status::S47, b"47"),
        (None, [NOTHING, OUTPUT, READ], Status::S47, b"47"),
        (Some(b"ABC"), [NOTHING, INPUT, write], Status::S48, b"48"),
        (None, [NOTHING, NOTHING, write], Status::S48, b"48"),
    ];
    for (held, steps, status, digits) in rows {
        let case = run(rt.alloc(), b'B', held, steps, b'S');
        assert!(rt; leaves(&case, Ok(status), digits));
    }
    Ok(())
}

#[test]
fn a_failed_call_without_a_status_item_ends_the_run(rt: HostRuntime) -> Result<(), Fail> {
    let write = Step::Write(b'L', None);
    let failed = Err(StepFault::File);
    let rows: [(Option<&[u8]>, [Step; 3], Result<Status, StepFault>); 12] = [
        (None, [NOTHING, NOTHING, OUTPUT], Ok(Status::S00)),
        (None, [NOTHING, NOTHING, INPUT], failed),
        (None, [NOTHING, NOTHING, EXTEND], failed),
        (Some(b""), [NOTHING, INPUT, OUTPUT], failed),
        (None, [NOTHING, NOTHING, Step::Close], failed),
        (Some(b""), [NOTHING, INPUT, READ], failed),
        (Some(b""), [NOTHING, INPUT, READ_OR_END], Ok(Status::S10)),
        (Some(b""), [INPUT, READ_OR_END, READ_OR_END], failed),
        (None, [NOTHING, NOTHING, READ_OR_END], failed),
        (None, [NOTHING, OUTPUT, READ_OR_END], failed),
        (Some(b"ABC"), [NOTHING, INPUT, write], failed),
        (None, [NOTHING, NOTHING, write], failed),
    ];
    for (held, steps, status) in rows {
        let case = run(rt.alloc(), b'A', held, steps, b'S');
        assert!(rt; leaves(&case, status, b"  "));
    }
    Ok(())
}

#[test]
fn a_record_goes_to_its_area_and_then_by_into(rt: HostRuntime) -> Result<(), Fail> {
    let part = Step::Read((b'W', 2, 4), true);
    let all = Step::Read((b'W', 0, 0), true);
    let outside = Step::Read((b'W', 6, 1), true);
    let good = Ok(Status::S00);
    let end = Ok(Status::S10);
    let rows: [(u8, &[u8], [Step; 3], Result<Status, StepFault>, u8, &[u8]); 10] = [
        (b'A', b"ABC", [NOTHING, INPUT, READ], good, b'L', b"ABC"),
        (b'A', b"ABC", [NOTHING, INPUT, part], good, b'W', b"VABC "),
        (b'A', b"ABC", [INPUT, part, part], end, b'W', b"VABC "),
        (b'A', b"ABC", [INPUT, READ, part], end, b'L', b"ABC"),
        (b'A', b"ABC", [INPUT, READ, part], end, b'W', b"VWXYZ"),
        (b'A', b"ABCDEF", [INPUT, READ, all], good, b'W', b"DEF  "),
        (b'B', b"ABCDEF", [INPUT, all, READ], good, b'P', b"DEF"),
        (
            b'A',
            b"ABC",
            [NOTHING, INPUT, outside],
            Err(StepFault::Range),
            b'L',
            b"ABC",
        ),
        (
            b'B',
            b"ABC",
            [NOTHING, INPUT, outside],
            Err(StepFault::Range),
            b'S',
            b"00",
        ),
        (b'B', b"", [NOTHING, INPUT, outside], end, b'S', b"10"),
    ];
    for (file, held, steps, status, item, bytes) in rows {
        let case = run(rt.alloc(), file, Some(held), steps, item);
        assert!(rt; leaves(&case, status, bytes));
    }
    Ok(())
}

#[test]
fn from_is_done_whatever_the_status(rt: HostRuntime) -> Result<(), Fail> {
    let long = Step::Write(b'L', Some(*b"HI"));
    let short = Step::Write(b'M', Some(*b"HI"));
    let told = Step::Write(b'P', Some(*b"HI"));
    let rows: [(u8, [Step; 3], Result<Status, StepFault>, u8, &[u8]); 5] = [
        (b'A', [NOTHING, OUTPUT, long], Ok(Status::S00), b'L', b"HI "),
        (
            b'A',
            [NOTHING, OUTPUT, short],
            Ok(Status::S00),
            b'L',
            b"HIc",
        ),
        (
            b'A',
            [NOTHING, NOTHING, long],
            Err(StepFault::File),
            b'L',
            b"HI ",
        ),
        (
            b'B',
            [NOTHING, NOTHING, told],
            Ok(Status::S48),
            b'P',
            b"HI ",
        ),
        (b'B', [NOTHING, NOTHING, told], Ok(Status::S48), b'S', b"48"),
    ];
    for (file, steps, status, item, bytes) in rows {
        let case = run(rt.alloc(), file, None, steps, item);
        assert!(rt; leaves(&case, status, bytes));
    }
    Ok(())
}

#[test]
fn records_are_written_with_the_length_of_the_file(rt: HostRuntime) -> Result<(), Fail> {
    let long = Step::Write(b'L', Some(*b"HI"));
    let short = Step::Write(b'M', Some(*b"OK"));
    let whole = Step::Write(b'L', None);
    let rows: [(Option<&[u8]>, [Step; 3], &[u8]); 5] = [
        (Some(b"ABC"), [EXTEND, long, short], b"ABCHI OK "),
        (Some(b"ABC"), [NOTHING, NOTHING, OUTPUT], b""),
        (Some(b"ABC"), [NOTHING, INPUT, Step::Close], b"ABC"),
        (None, [OUTPUT, short, Step::Close], b"OK "),
        (None, [NOTHING, OUTPUT, whole], b"abc"),
    ];
    for (held, steps, bytes) in rows {
        let case = run(rt.alloc(), b'A', held, steps, b'W');
        assert!(rt; holds(&case, bytes));
    }
    Ok(())
}
