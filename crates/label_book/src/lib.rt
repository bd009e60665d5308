// The label book's front door: every public call and every type that a caller needs. No call asks anything of its
// arguments; a call that declines says why by a `Refusal` and changes no lent byte. What a call gives and leaves is the
// definition named behind it. Its contract stands above its code, in the crate that the line below the comment names:
// `crates/edit_calls/src/lib.rt` for `edit_calls`, and so on. The same calls under C names, but for `head` and
// `head_length`, which are one there, are crate `label_book_c`.
#![tactic(auto)]

// Why a call declines, one of ten; `u8::from` gives its number.
pub use answer::Refusal;

// Edits, as defined in `crates/edit/specs/Edits.antt`. Each writes the new book at the front of another buffer.

// empty(dst: &mut [u8]) -> Result<Size, Refusal>
// Writes the book of no entries: `empty_book`.
pub use edit_calls::empty;
// set(book: &[u8], name: &[u8], score: u32, dst: &mut [u8]) -> Result<Size, Refusal>
// Adds a name, or gives it a new score: `set_entry`.
pub use edit_calls::set;
// withdraw(book: &[u8], name: &[u8], dst: &mut [u8]) -> Result<Size, Refusal>
// Removes a name: `withdraw_entry`.
pub use edit_calls::withdraw;
// merge(first: &[u8], second: &[u8], dst: &mut [u8]) -> Result<Size, Refusal>
// Joins two books in a third buffer; where both have a name the first one's score counts: `merge_books` in
// `crates/merge/specs/Joined.antt`.
pub use merge_calls::merge;
// { entries, bytes }: how many entries are in what was written, or checked, and its length. Every call that writes
// answers by it.
pub use answer::Size;

// Lookups by name, as defined in `crates/lookup/specs/Lookups.antt`.

// find(book: &[u8], name: &[u8]) -> Result<Option<Found>, Refusal>
// The position and score of a name, or that it is absent: `find`.
pub use lookup_name_calls::find;
// name_of(book: &[u8], name: &[u8], dst: &mut [u8]) -> Result<Size, Refusal>
// Writes the given name with its score as one answer entry: `name_of`.
pub use lookup_name_calls::name_of;
// prefix_range(book: &[u8], prefix: &[u8]) -> Result<Span, Refusal>
// The first position that a prefix begins, 0 if there is none, and how many it begins: `prefix_range`.
pub use lookup_name_calls::prefix_range;
// { position, score } of a name that is held.
pub use answer::Found;
// { first, count } of the positions that a prefix begins.
pub use answer::Span;

// Lookups by number, as defined there too.

// check(book: &[u8]) -> Result<Size, Refusal>
// Whether the buffer holds a book, and how many entries and bytes it has: `check_book`.
pub use lookup_number_calls::check;
// name_at(book: &[u8], position: usize, dst: &mut [u8]) -> Result<Size, Refusal>
// Writes the entry at a position as one answer entry: `name_at`.
pub use lookup_number_calls::name_at;
// head<'a>(book: &'a [u8], bucket: usize) -> &'a [u8]
// The head name of a bucket, a part of the book; empty where `head_length` refuses: `head_name`.
pub use lookup_head_calls::head;
// head_length(book: &[u8], bucket: usize) -> Result<usize, Refusal>
// The length of that name: `head_length`.
pub use lookup_head_calls::head_length;

// Completion: the first k entries in rank that a prefix begins, or all if fewer, as answer entries.

// complete(book: &[u8], prefix: &[u8], k: usize, dst: &mut [u8], ranges: &mut [Range]) -> Result<Offered, Refusal>
// From a book: `complete_book` in `crates/completion/specs/Complete.antt`. The open ranges wait in the lent slice.
pub use completion_calls::complete;
// complete_trie(trie: &[u8], prefix: &[u8], k: usize, dst: &mut [u8]) -> Result<Offered, Refusal>
// From a trie: `complete_trie` in `crates/trie/specs/Calls.antt`. It takes no ranges and reports looks 0.
pub use trie_calls::complete_trie;
// { offered, bytes, looks }: the entries offered, the bytes written, the looks.
pub use answer::Offered;
// An open range: { first, best, score, last }.
pub use completion::Range;

// Conversions: an image, or a page, written from an image of the same entries.

// build(sheet: &[u8], dst: &mut [u8]) -> Result<Size, Refusal>
// Builds a book from a sheet: `build_book` in `crates/sheet/specs/Sheet.antt`.
pub use sheet_calls::build;
// list(book: &[u8], dst: &mut [u8]) -> Result<Size, Refusal>
// Lists a book into a sheet: `list_book` there.
pub use sheet_calls::list;
// convert(book: &[u8], dst: &mut [u8]) -> Result<Size, Refusal>
// Writes a book of version 21 as 22, and one of 22 as 21: `convert_book` in `crates/convert/specs/Convert.antt`.
pub use convert_calls::convert;
// write_trie(book: &[u8], dst: &mut [u8]) -> Result<Size, Refusal>
// Writes the trie of a book's entries: `write_trie` in `crates/trie/specs/Calls.antt`.
pub use trie_calls::write_trie;
// page(book: &[u8], dst: &mut [u8]) -> Result<Size, Refusal>
// Lays a book out as a page for the wall: `write_page` in `crates/page/specs/Page.antt`.
pub use page_calls::page;

// The panel, as defined in `crates/panel/specs/Panel.antt`.

// press(book: &[u8], panel: &mut Panel, key: u8) -> Result<usize, Refusal>
// A key: the lent state is updated in place, from the row with the held name, and its rows are told: `press`.
pub use panel_calls::press;
// The lent state: { text, len, highlight, rows, held, held_len }.
pub use panel::Panel;

// Histories.

// run(script: &[u8], first: &mut [u8], second: &mut [u8], out: &mut [u8]) -> Result<Played, Refusal>
// Runs a script of sets and withdrawals on two buffers from the empty book on, the answers kept in `out`: `run_of` in
// `crates/script/specs/Run.antt`; `crates/script/specs/Theorem.antt` says that what it leaves is the ledger's.
pub use script_calls::run;
// { calls, turned }: the calls made, and whether the second buffer holds the book.
pub use answer::Played;
