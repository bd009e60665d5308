// The label book for C: the calls of the front door under C names (include/label_book.h), `head` and `head_length` in
// one. A call returns 0 or the refusal's number, and tells its counts through pointers, all of them 0 with a refusal.
#![tactic(auto)]

ghost use Rattle.std.specs.Prelude.{◌≡◌, true, length};
ghost use Rattle.book.specs.Book.{is_book};
ghost use Rattle.lookup.specs.Lookups.{check_book, find, name_at, name_of, prefix_range};
ghost use Rattle.edit.specs.Edits.{empty_book, set_entry, withdraw_entry};
ghost use Rattle.merge.specs.Joined.{merge_books};
ghost use Rattle.sheet.specs.Sheet.{build_book, list_book};
ghost use Rattle.convert.specs.Convert.{convert_book};
ghost use Rattle.completion.specs.Complete.{complete_book};
ghost use Rattle.trie.specs.Calls.{complete_trie, write_trie};
ghost use Rattle.page.specs.Page.{write_page};
ghost use Rattle.panel.specs.Panel.{press};
ghost use Rattle.script.specs.Run.{run_of};
ghost use Rattle.abi.specs.Told.{FoundTold, SpanTold, WrittenTold};
ghost use Rattle.abi.specs.Left.{HeadTold, Left, OfferedLeft, OfferedOver, PanelLeft, RunLeft, head_at};

use limits::COUNT_AT;

// Writes the book of no entries.
#[unsafe(no_mangle)]
pub extern "C" fn label_book_empty(dst: &mut [u8], entries: &mut usize, bytes: &mut usize) -> u8
    ensures { Left (empty_book dst.old) result entries.new bytes.new
        dst.new }
{
    abi_values::tell_written(label_book::empty(dst), entries, bytes)
}

// Adds a name, or gives it a new score: the result stands at the front of another buffer.
#[unsafe(no_mangle)]
pub extern "C" fn label_book_set(
    book: &[u8],
    name: &[u8],
    score: u32,
    dst: &mut [u8],
    entries: &mut usize,
    bytes: &mut usize,
) -> u8
    ensures { Left (set_entry book.now name.now score dst.old) result
        entries.new bytes.new dst.new }
{
    abi_values::tell_written(label_book::set(book, name, score, dst), entries, bytes)
}

// Removes a name: the result stands at the front of another buffer.
#[unsafe(no_mangle)]
pub extern "C" fn label_book_withdraw(
    book: &[u8],
    name: &[u8],
    dst: &mut [u8],
    entries: &mut usize,
    bytes: &mut usize,
) -> u8
    ensures { Left (withdraw_entry book.now name.now dst.old) result
        entries.new bytes.new dst.new }
{
    abi_values::tell_written(label_book::withdraw(book, name, dst), entries, bytes)
}

// Merges two books into a third buffer: every name of either, with the first book's score where both have it.
#[unsafe(no_mangle)]
pub extern "C" fn label_book_merge(
    first: &[u8],
    second: &[u8],
    dst: &mut [u8],
    entries: &mut usize,
    bytes: &mut usize,
) -> u8
    ensures { Left (merge_books first.now second.now dst.old) result
        entries.new bytes.new dst.new }
{
    abi_values::tell_written(label_book::merge(first, second, dst), entries, bytes)
}

// Whether a buffer holds a book: how many entries it has, and how many bytes its image.
#[unsafe(no_mangle)]
pub extern "C" fn label_book_check(book: &[u8], entries: &mut usize, bytes: &mut usize) -> u8
    ensures { WrittenTold (check_book book.now) result entries.new bytes.new }
{
    abi_values::tell_written(label_book::check(book), entries, bytes)
}

// Writes the entry at a position as one answer entry.
#[unsafe(no_mangle)]
pub extern "C" fn label_book_name_at(
    book: &[u8],
    position: usize,
    dst: &mut [u8],
    entries: &mut usize,
    bytes: &mut usize,
) -> u8
    ensures { Left (name_at book.now position dst.old) result entries.new
        bytes.new dst.new }
{
    abi_values::tell_written(label_book::name_at(book, position, dst), entries, bytes)
}

// Writes the given name with its score as one answer entry.
#[unsafe(no_mangle)]
pub extern "C" fn label_book_name_of(
    book: &[u8],
    name: &[u8],
    dst: &mut [u8],
    entries: &mut usize,
    bytes: &mut usize,
) -> u8
    ensures { Left (name_of book.now name.now dst.old) result entries.new
        bytes.new dst.new }
{
    abi_values::tell_written(label_book::name_of(book, name, dst), entries, bytes)
}

// Builds a book from a sheet.
#[unsafe(no_mangle)]
pub extern "C" fn label_book_build(
    sheet: &[u8],
    dst: &mut [u8],
    entries: &mut usize,
    bytes: &mut usize,
) -> u8
    ensures { Left (build_book sheet.now dst.old) result entries.new
        bytes.new dst.new }
{
    abi_values::tell_written(label_book::build(sheet, dst), entries, bytes)
}

// Lists a book into a sheet.
#[unsafe(no_mangle)]
pub extern "C" fn label_book_list(
    book: &[u8],
    dst: &mut [u8],
    entries: &mut usize,
    bytes: &mut usize,
) -> u8
    ensures { Left (list_book book.now dst.old) result entries.new bytes.new
        dst.new }
{
    abi_values::tell_written(label_book::list(book, dst), entries, bytes)
}

// Writes the trie of a book.
#[unsafe(no_mangle)]
pub extern "C" fn label_book_write_trie(
    book: &[u8],
    dst: &mut [u8],
    entries: &mut usize,
    bytes: &mut usize,
) -> u8
    ensures { Left (write_trie book.now dst.old) result entries.new bytes.new
        dst.new }
{
    abi_values::tell_written(label_book::write_trie(book, dst), entries, bytes)
}

// Writes a book of version 21 as 22, and one of 22 as 21.
#[unsafe(no_mangle)]
pub extern "C" fn label_book_convert(
    book: &[u8],
    dst: &mut [u8],
    entries: &mut usize,
    bytes: &mut usize,
) -> u8
    ensures { Left (convert_book book.now dst.old) result entries.new
        bytes.new dst.new }
{
    abi_values::tell_written(label_book::convert(book, dst), entries, bytes)
}

// Lays a book out as a page for the wall.
#[unsafe(no_mangle)]
pub extern "C" fn label_book_page(
    book: &[u8],
    dst: &mut [u8],
    entries: &mut usize,
    bytes: &mut usize,
) -> u8
    ensures { Left (write_page book.now dst.old) result entries.new bytes.new
        dst.new }
{
    abi_values::tell_written(label_book::page(book, dst), entries, bytes)
}

// The position and score of a name, or that it is absent.
#[unsafe(no_mangle)]
pub extern "C" fn label_book_find(
    book: &[u8],
    name: &[u8],
    found: &mut usize,
    position: &mut usize,
    score: &mut u32,
) -> u8
    ensures { FoundTold (find book.now name.now) result found.new
        position.new score.new }
{
    abi_values::tell_found(label_book::find(book, name), found, position, score)
}

// The first position that a prefix begins, 0 if there is none, and how many it begins.
#[unsafe(no_mangle)]
pub extern "C" fn label_book_prefix_range(
    book: &[u8],
    prefix: &[u8],
    first: &mut usize,
    count: &mut usize,
) -> u8
    ensures { SpanTold (prefix_range book.now prefix.now) result first.new
        count.new }
{
    abi_values::tell_span(label_book::prefix_range(book, prefix), first, count)
}

// Where the head name of a book with entries begins.
fn head_start(book: &[u8]) -> usize
    requires { is_book book.now ≡ true }
    ensures { result ≡ head_at book.now }
{
    let n = octets_code::read_u16(book, COUNT_AT) as usize;
    lookup_head_calls::head_start(n)
}

// Where in the book the head name of a bucket begins, and its length.
#[unsafe(no_mangle)]
pub extern "C" fn label_book_head(
    book: &[u8],
    bucket: usize,
    start: &mut usize,
    length: &mut usize,
) -> u8
    ensures { HeadTold book.now bucket result start.new length.new }
{
    *start = 0;
    *length = 0;
    match label_book::head_length(book, bucket) {
        Ok(size) => {
            *start = head_start(book);
            *length = size;
            0
        }
        Err(refusal) => u8::from(refusal),
    }
}

// Completion from a book, whose open ranges wait in lent ones.
#[unsafe(no_mangle)]
pub extern "C" fn label_book_complete(
    book: &[u8],
    prefix: &[u8],
    k: usize,
    dst: &mut [u8],
    ranges: &mut [completion::Range],
    offered: &mut usize,
    bytes: &mut usize,
    looks: &mut usize,
) -> u8
    ensures { OfferedOver (complete_book book.now prefix.now k dst.old
        (length ranges.old)) result offered.new bytes.new looks.new
        dst.new ranges.old ranges.new }
{
    let answer = label_book::complete(book, prefix, k, dst, ranges);
    abi_values::tell_offered(answer, offered, bytes, looks)
}

// Completion from a trie.
#[unsafe(no_mangle)]
pub extern "C" fn label_book_complete_trie(
    trie: &[u8],
    prefix: &[u8],
    k: usize,
    dst: &mut [u8],
    offered: &mut usize,
    bytes: &mut usize,
    looks: &mut usize,
) -> u8
    ensures { OfferedLeft (complete_trie trie.now prefix.now k dst.old) result
        offered.new bytes.new looks.new dst.new }
{
    abi_values::tell_offered(
        label_book::complete_trie(trie, prefix, k, dst),
        offered,
        bytes,
        looks,
    )
}

// A key of the panel: the lent state is updated in place.
#[unsafe(no_mangle)]
pub extern "C" fn label_book_press(
    book: &[u8],
    panel: &mut panel::Panel,
    key: u8,
    rows: &mut usize,
) -> u8
    ensures { PanelLeft (press book.now panel.old key) result rows.new
        panel.new }
{
    let answer = label_book::press(book, panel, key);
    abi_values::tell_rows(answer, rows)
}

// Runs a history, a script of sets and withdrawals, on two lent buffers from the empty book on.
#[unsafe(no_mangle)]
pub extern "C" fn label_book_run(
    script: &[u8],
    first: &mut [u8],
    second: &mut [u8],
    out: &mut [u8],
    calls: &mut usize,
    turned: &mut usize,
) -> u8
    ensures { RunLeft (run_of script.now first.old second.old
        out.old) result calls.new turned.new first.new second.new
        out.new }
{
    abi_values::tell_played(label_book::run(script, first, second, out), calls, turned)
}
