// The page of a table of names: measured from the lengths, the rows sorted into rank, and the lines written.
#![tactic(auto)]

ghost use Rattle.std.specs.Prelude.{◌≡◌, ◌+◌, ◌≤◌, ltb, length, take};
ghost use Rattle.std.proofs.lemmas.List.Edits.{sets};
ghost use Rattle.octets.specs.Lists.{if◌then◌otherwise◌};
ghost use Rattle.octets.specs.Octets.{overwrite};
ghost use Rattle.octets_laws.specs.Printed.{Printed};
ghost use Rattle.entries.specs.Entries.{entry, max_entries};
ghost use Rattle.entries_sort.specs.Ranked.{Ranked};
ghost use Rattle.book_table.specs.Table.{Table, entries};
ghost use Rattle.page.specs.Page.{ended, further_line, heading, line_bytes, name_columns, on_page, padded};
ghost use Rattle.page.specs.Page.{page_columns, page_image};
ghost use Rattle.page_write.specs.Lines.{Pageable, further, page_bytes};

use limits::{LONGEST_NAME, MAX_ENTRIES, NAME_COLUMNS, PAGE_COLUMNS, PAGE_LINE, SMALL_TABLE};

// The bytes of a page: the heading's line, and for each name as many as it has parts.
pub fn page_size(lens: &[u8]) -> usize
    requires { length lens.now ≤ max_entries }
    ensures { result ≡ page_bytes lens.now }
{
    let mut lines = 1;
    for len in lens {
        // rounded up, as the definition has it
        lines += (*len as usize + (NAME_COLUMNS - 1)) / NAME_COLUMNS;
    }
    lines * PAGE_LINE
}

// Writes a line with a part of a name and no score.
fn put_line(dst: &mut [u8], at: usize, part: &[u8])
    requires { (at + line_bytes ≤ length dst.old) × (length part.now ≤ name_columns) }
    ensures { dst.new ≡ sets dst.old at (ended (further_line part.now)) }
{
    dst[at..at + PAGE_COLUMNS].fill(b' ');
    dst[at + PAGE_COLUMNS] = b'\n';
    octets_code::copy(dst, at, part);
}

// Writes the further lines of a name, from what its first line left of it: where they end.
fn put_further(dst: &mut [u8], at: usize, rest: &[u8]) -> usize
    requires { at + length (further rest.now) ≤ length dst.old }
    ensures { Printed dst.old at (further rest.now) result dst.new }
{
    let mut end = at;
    for part in rest.chunks(NAME_COLUMNS) {
        put_line(dst, end, part);
        end += PAGE_LINE;
    }
    end
}

// The byte in column j of a line with n bytes of a name, where b is the row's.
fn column(b: u8, j: u8, n: u8) -> u8
    ensures { result ≡ (if ltb j n then b otherwise 0x20) }
{
    if j < n { b } else { b' ' }
}

// Fills the columns of a line with the first n bytes of a row, and spaces behind them: as many turns for every name,
// into an array of its own, and the columns counted in a byte, so that the processor does many at a time.
fn put_columns(dst: &mut [u8], at: usize, row: &[u8], n: u8)
    requires { (at + page_columns ≤ length dst.old) × (page_columns ≤ length row.now) × (n ≤ page_columns) }
    ensures { dst.new ≡ sets dst.old at (padded page_columns (take n row.now)) }
{
    let mut line = [0; PAGE_COLUMNS];
    for j in 0..PAGE_COLUMNS {
        line[j] = column(row[j], j as u8, n);
    }
    octets_code::copy(dst, at, &line);
}

// Writes the lines of an entry, whose name is the first len bytes of a row: where they end.
fn put_entry(dst: &mut [u8], at: usize, row: &[u8], len: usize, score: u32) -> usize
    requires { (at + length (on_page (entry (take len row.now) score)) ≤ length dst.old)
        × (page_columns ≤ length row.now) × (len ≤ length row.now) }
    ensures { Printed dst.old at (on_page (entry (take len row.now) score)) result
        dst.new }
{
    let first = NAME_COLUMNS.min(len);
    put_columns(dst, at, row, first as u8);
    dst[at + PAGE_COLUMNS] = b'\n';
    octets_decimal::put_decimal(dst, at + PAGE_COLUMNS, score);
    put_further(dst, at + PAGE_LINE, &row[first..len])
}

// Writes the heading's line.
fn put_heading(dst: &mut [u8])
    requires { line_bytes ≤ length dst.old }
    ensures { dst.new ≡ sets dst.old 0 (ended heading) }
{
    octets_code::copy(dst, 0, b"NAME                               SCORE");
    dst[PAGE_COLUMNS] = b'\n';
}

// Writes the page of the table's entries, whose rows are given in rank.
fn put_page(names: &[u8], lens: &[u8], scores: &[u32], order: &[u16], dst: &mut [u8])
    requires { Table names.now lens.now scores.now
        × Ranked (entries names.now lens.now scores.now) (length lens.now) order.now
        × (length lens.now ≤ length order.now)
        × (length (page_image (entries names.now lens.now scores.now)) ≤ length dst.old) }
    ensures { dst.new ≡ overwrite dst.old
        (page_image (entries names.now lens.now scores.now)) }
{
    put_heading(dst);
    let mut at = PAGE_LINE;
    for ranked in &order[..lens.len()] {
        let row = *ranked as usize;
        let from = row * LONGEST_NAME;
        let to = from + LONGEST_NAME;
        at = put_entry(dst, at, &names[from..to], lens[row] as usize, scores[row]);
    }
}

// Sorts the rows into rank, of which there are at most so many, and writes their page, for which there is room.
fn write_ranked<const ROWS: usize>(names: &[u8], lens: &[u8], scores: &[u32], dst: &mut [u8])
    requires { Pageable names.now lens.now scores.now dst.old × (length lens.now ≤ ROWS) × (ROWS ≤ max_entries) }
    ensures { dst.new ≡ overwrite dst.old
        (page_image (entries names.now lens.now scores.now)) }
{
    let mut order = [0; ROWS];
    let mut other = [0; ROWS];
    entries_sort::sort_first(scores, lens.len(), &mut order, &mut other);
    put_page(names, lens, scores, &order, dst);
}

// Writes the page of the table's entries, for which there is room.
pub fn write(names: &[u8], lens: &[u8], scores: &[u32], dst: &mut [u8])
    requires { Pageable names.now lens.now scores.now dst.old }
    ensures { dst.new ≡ overwrite dst.old
        (page_image (entries names.now lens.now scores.now)) }
{
    if lens.len() <= SMALL_TABLE {
        write_ranked::<SMALL_TABLE>(names, lens, scores, dst);
    } else {
        write_ranked::<MAX_ENTRIES>(names, lens, scores, dst);
    }
}
