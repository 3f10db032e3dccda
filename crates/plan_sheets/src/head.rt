// The head of a plan sheet: its first section, the lists of failed disks and of wanted symbols, and the step count.
ghost use Rattle.std.specs.Prelude.{◌≡◌, ◌+◌, ◌≤◌, ◌<◌, length};
ghost use Rattle.sheets.specs.Buffers.{at_front, from_place};
ghost use Rattle.plan_sheets.specs.PlanSheets.{reads_at, head_in, sections_for, wanted_count_at, sections_in, steps_at, head_length, sheet_length, step_count_at, list_at};
ghost use Rattle.plan_sheets.specs.InnerPlanSheets.{first_numbers, disk_bytes, wanted_bytes, SmallPlace, SmallSections, plan_head, HeadOfBytes, HeadWritable};

use sheets::{byte_at, two_bytes_at, write_list, write_two_bytes};

// What a plan sheet says before its lists; `count` is its first byte.
// The edition is the sheet's byte, which may be any: an enum would need a case for every other byte besides.
#[derive(Clone, Copy)]
pub struct PlanHead {
    pub count: usize,
    pub edition: usize,
    pub disks: usize,
    pub height: usize,
    pub data_symbols: usize,
    pub reads: usize,
}

// Where the read count stands.
fn reads_at(edition: usize) -> usize
    ensures { result ≡ reads_at edition }
{
    if edition == 3 {
        return 5;
    }
    6
}

// The head of a sheet, read once. Bytes behind the sheet's end count as 0.
pub fn read_head(plan: &[u8]) -> PlanHead
    ensures { result ≡ head_in plan.now }
{
    let edition = byte_at(plan, 1);
    PlanHead {
        count: byte_at(plan, 0),
        edition,
        disks: byte_at(plan, 2),
        height: byte_at(plan, 3),
        data_symbols: byte_at(plan, 4),
        reads: byte_at(plan, reads_at(edition)),
    }
}

// Where a list lies in a sheet: its first entry and their number.
#[derive(Clone, Copy)]
pub struct ListPlace {
    pub first: usize,
    pub count: usize,
}

// Where both lists lie; the step count stands behind them, then the steps.
#[derive(Clone, Copy)]
pub struct Sections {
    pub failed: ListPlace,
    pub wanted: ListPlace,
}

// Edition 3 has two lists, each behind one byte count. Editions 1 and 2 have one disk; edition 2 has a list of symbols behind one byte count,
// edition 1 has none.
pub fn sections_for(edition: usize, failed: usize, listed: usize) -> Sections
    requires { (failed < 256) × (listed < 256) }
    ensures sections { result ≡ sections_for edition failed listed }
    ensures small { SmallSections result }
{
    if edition == 3 {
        return Sections {
            failed: ListPlace {
                first: 7,
                count: failed,
            },
            wanted: ListPlace {
                first: 8 + failed,
                count: listed,
            },
        };
    }
    if edition == 2 {
        return Sections {
            failed: ListPlace { first: 5, count: 1 },
            wanted: ListPlace {
                first: 8,
                count: listed,
            },
        };
    }
    Sections {
        failed: ListPlace { first: 5, count: 1 },
        wanted: ListPlace { first: 7, count: 0 },
    }
}

// Where the number of wanted symbols stands.
fn wanted_count_at(edition: usize, failed: usize) -> usize
    requires { failed < 256 }
    ensures { result ≡ wanted_count_at edition failed }
{
    if edition == 3 {
        return 7 + failed;
    }
    7
}

// The sections of a sheet, by its edition and the counts of its lists.
pub fn read_sections(plan: &[u8]) -> Sections
    ensures read { result ≡ sections_in plan.now }
    ensures small { SmallSections result }
{
    let edition = byte_at(plan, 1);
    let failed = byte_at(plan, 6);
    let listed = byte_at(plan, wanted_count_at(edition, failed));
    sections_for(edition, failed, listed)
}

// Where the step count stands: behind the lists.
fn steps_at(sections: Sections) -> usize
    requires { SmallSections sections }
    ensures { result ≡ steps_at sections }
{
    let wanted = sections.wanted;
    wanted.first + wanted.count
}

// The length of a head: the steps stand behind the two bytes of their count.
pub fn head_length(sections: Sections) -> usize
    requires { SmallSections sections }
    ensures { result ≡ head_length sections }
{
    steps_at(sections) + 2
}

// The length of a sheet of so many steps of 3 bytes.
pub fn sheet_length(sections: Sections, steps: usize) -> usize
    requires { SmallSections sections × (steps < 65536) }
    ensures { result ≡ sheet_length sections steps }
{
    head_length(sections) + 3 * steps
}

// The step count of a sheet, low byte first.
pub fn step_count(plan: &[u8], sections: Sections) -> usize
    requires { SmallSections sections }
    ensures { (result ≡ step_count_at sections plan.now) × (result < 65536) }
{
    two_bytes_at(plan, steps_at(sections))
}

// A list, as far as the sheet goes.
pub fn list_part<'a>(plan: &'a [u8], place: ListPlace) -> &'a [u8]
    requires { SmallPlace place }
    ensures { result.now ≡ list_at place plan.now }
{
    let behind = plan.get(place.first..).unwrap_or(&[]);
    &behind[..place.count.min(behind.len())]
}

// The first numbers at the front of a buffer.
fn write_numbers(head: PlanHead, buffer: &mut [u8])
    requires { HeadOfBytes head × (5 ≤ length buffer.old) }
    ensures { buffer.new ≡ at_front (first_numbers head) buffer.old }
{
    buffer[0] = head.count as u8;
    buffer[1] = head.edition as u8;
    buffer[2] = head.disks as u8;
    buffer[3] = head.height as u8;
    buffer[4] = head.data_symbols as u8;
}

// The failed disk and the read count behind the first numbers; in edition 3 the read count and the list of disks.
fn write_disks(edition: usize, reads: usize, failed: &[u8], buffer: &mut [u8])
    requires { (reads < 256) × (length failed.now < 256) × (5 + length (disk_bytes edition reads failed.now) ≤ length buffer.old) }
    ensures { buffer.new ≡ from_place 5 (disk_bytes edition reads failed.now) buffer.old }
{
    if edition == 3 {
        buffer[5] = reads as u8;
        write_list(failed, 6, buffer);
        return;
    }
    buffer[5] = byte_at(failed, 0) as u8;
    buffer[6] = reads as u8;
}

// The list of wanted symbols from a place on, which edition 1 does not have.
fn write_wanted(edition: usize, wanted: &[u8], at: usize, buffer: &mut [u8])
    requires { (length wanted.now < 256) × (at < 519) × (at + length (wanted_bytes edition wanted.now) ≤ length buffer.old) }
    ensures { buffer.new ≡ from_place at (wanted_bytes edition wanted.now) buffer.old }
{
    if edition == 1 {
        return;
    }
    write_list(wanted, at, buffer);
}

// The first numbers, the disks, the wanted symbols, and two bytes step count, low byte first.
pub fn write_head(head: PlanHead, failed: &[u8], wanted: &[u8], steps: usize, buffer: &mut [u8])
    requires { HeadWritable head failed.now wanted.now steps (length buffer.old) }
    ensures { buffer.new ≡ at_front (plan_head head failed.now wanted.now steps) buffer.old }
{
    let edition = head.edition;
    let reads = head.reads;
    let listed = wanted_count_at(edition, failed.len());
    let at = steps_at(sections_for(edition, failed.len(), wanted.len()));
    write_numbers(head, buffer);
    write_disks(edition, reads, failed, buffer);
    write_wanted(edition, wanted, listed, buffer);
    write_two_bytes(steps, at, buffer);
}
