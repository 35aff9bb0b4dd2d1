// Sheets that are read and written back, into outputs that just fit and that do not.
use crate::texts::{HIGHEST, LENGTHY, LOWEST, full};
use measures::volume::Volume;
use sheet::lines::{Direction, UnitLine};
use sheet::place::Place;
use sheet::report::Sheet;
use sheet_text::reading::read;
use sheet_writer::laws::LONGEST;
use sheet_writer::refusal::WritingRefusal;
use sheet_writer::writing::write_sheet;
use std::process::Abort;
use std::test::Fail;

const EMPTY: &str =
    "PERIOD 2 15 9\nDAM 0 kop/MWh\nFORCED 1 kWh H\nOFFERS 0\nUNITS 0\nGROUPS 0\nEND\n";

const SMALL: &str =
    "PERIOD 1 3 17\nDAM -1 kop/MWh\nFORCED 0 kWh H\nOFFERS 2\n1 U 7 20 kWh 0 kop/MWh -\n4 D 4 1 kWh -3 kop/MWh C\nUNITS 1\n999 D 0 kWh\nGROUPS 2\n1 - 1 kWh\n64 + 0 kWh\nEND\n";

const UNIT_BEYOND: &str =
    "PERIOD 2 15 9\nDAM 0 kop/MWh\nFORCED 1 kWh H\nOFFERS 0\nUNITS 1\n65535 D 0 kWh\nGROUPS 0\nEND\n";

const ONE_SHORT: usize = LONGEST - 1;

// Reads a text and writes its sheet to `out`, which is full of dots: the text is at the front, and
// the dots are kept behind it. A test that fails names the text.
fn written_back(rt: &impl Abort, name: &str, text: &[u8], out: &mut [u8]) -> Result<(), Fail> {
    let report = read(text).map_err(|_| Fail::new("the text is refused"))?;
    let length = write_sheet(report.place, &report.sheet, out).map_err(|_| Fail::new(
        "the output is too short",
    ))?;
    assert_eq!(rt; length, text.len(), "{name}");
    assert!(rt; length <= out.len(), "{name}");
    assert!(rt; &out[0..length] == text, "{name}");
    assert!(rt; all_dots(&out[length..]), "{name}");
    Ok(())
}

fn all_dots(bytes: &[u8]) -> bool {
    bytes.iter().all(|byte| *byte == b'.')
}

#[test]
fn sheets_at_their_limits_are_written_back(rt: HostRuntime) -> Result<(), Fail> {
    for figures in [LOWEST, HIGHEST, LENGTHY] {
        let text = full(rt.alloc(), figures)?;
        let mut out = [b'.'; 2000];
        written_back(&rt, figures.head, text.as_bytes(), &mut out[..])?;
    }
    Ok(())
}

#[test]
fn small_sheets_are_written_back(rt: HostRuntime) -> Result<(), Fail> {
    let mut out = [b'.'; 200];
    written_back(&rt, "small", SMALL.as_bytes(), &mut out[..])?;
    let mut out = [b'.'; 200];
    written_back(&rt, "empty", EMPTY.as_bytes(), &mut out[..])
}

#[test]
fn the_longest_text_just_fits(rt: HostRuntime) -> Result<(), Fail> {
    let text = full(rt.alloc(), LENGTHY)?;
    assert_eq!(rt; text.len(), LONGEST);
    let mut out = [b'.'; LONGEST];
    written_back(&rt, "longest", text.as_bytes(), &mut out[..])
}

// Refuses an output full of dots, and leaves it so.
fn refused(rt: &impl Abort, text: &[u8], out: &mut [u8]) -> Result<(), Fail> {
    let report = read(text).map_err(|_| Fail::new("the text is refused"))?;
    let refused = write_sheet(report.place, &report.sheet, out);
    assert!(rt; refused == Err(WritingRefusal::OutputShort));
    assert_eq!(rt; WritingRefusal::OutputShort.number(), 15);
    assert!(rt; all_dots(out));
    Ok(())
}

#[test]
fn a_short_output_is_refused_and_stays(rt: HostRuntime) -> Result<(), Fail> {
    let text = full(rt.alloc(), LENGTHY)?;
    let mut out = [b'.'; ONE_SHORT];
    refused(&rt, text.as_bytes(), &mut out[..])?;
    let mut none = [b'.'; 0];
    refused(&rt, text.as_bytes(), &mut none[..])
}

fn writes(rt: &impl Abort, place: Place, sheet: &Sheet, text: &[u8]) -> Result<(), Fail> {
    let mut out = [b'.'; LONGEST];
    let length = write_sheet(place, sheet, &mut out[..]).map_err(|_| Fail::new(
        "the output is too short",
    ))?;
    assert!(rt; length <= LONGEST);
    assert!(rt; &out[0..length] == text);
    Ok(())
}

#[test]
fn numbers_beyond_their_limits_are_written(rt: HostRuntime) -> Result<(), Fail> {
    let report = read(EMPTY.as_bytes()).map_err(|_| Fail::new("the text is refused"))?;
    let mut sheet = report.sheet;
    assert!(rt;
        sheet
            .units
            .push(UnitLine {
                unit: 65_535,
                direction: Direction::Down,
                energy: Volume { kwh: 0 },
            })
            .is_ok()
    );
    writes(&rt, report.place, &sheet, UNIT_BEYOND.as_bytes())
}

#[test]
fn a_count_beyond_the_places_stands_for_all(rt: HostRuntime) -> Result<(), Fail> {
    let text = full(rt.alloc(), HIGHEST)?;
    let report = read(text.as_bytes()).map_err(|_| Fail::new("the text is refused"))?;
    let mut sheet = report.sheet;
    sheet.units.len = 17;
    writes(&rt, report.place, &sheet, text.as_bytes())
}
