// The numbers of the formats and of the program, by name. Each has the name that the definitions give it, which is said
// behind it; a function's contract speaks of that one.
#![tactic(auto)]

// The most bytes of a name or a prefix: `longest_name`.
pub const LONGEST_NAME: usize = 48;
// The first and the last byte that is a sign by itself: `is_plain`.
pub const FIRST_PLAIN: u8 = 0x20;

pub const LAST_PLAIN: u8 = 0x7E;
// The two bytes of µ and those of Ω: `is_pair`.
pub const MICRO_LEAD: u8 = 0xC2;

pub const MICRO_TAIL: u8 = 0xB5;

pub const OHM_LEAD: u8 = 0xCE;

pub const OHM_TAIL: u8 = 0xA9;

// The most entries of a book, a trie or a sheet: `max_entries`.
pub const MAX_ENTRIES: usize = 1024;
// The bytes of a score, in an image and in an answer.
pub const SCORE_BYTES: usize = 4;
// The bytes of an entry besides its name, in an answer and in a sheet: length byte and score.
pub const ENTRY_OVERHEAD: usize = 5;

// The first bytes of every image: version, total length, number of entries.
pub const FRAME_LENGTH: usize = 7;
// Where the total length and the number of entries stand in them.
pub const TOTAL_AT: usize = 1;

pub const COUNT_AT: usize = 5;
// The versions of a book, of an old one, of a sheet and a trie.
pub const BOOK_VERSION: u8 = 0x22;

pub const OLD_BOOK_VERSION: u8 = 0x21;
// Whether a book of either version has bucket heads: `today`, `layout21`.
pub const BOOK_HEADS: bool = false;

pub const OLD_BOOK_HEADS: bool = true;

// The most bytes of a book, in either version: `book_length` on the page of promises.
pub const LONGEST_BOOK: usize = 55559;

pub const SHEET_VERSION: u8 = 0x11;

pub const TRIE_VERSION: u8 = 0x31;

// The bytes of a record before its rest, where it is no bucket's head: the common byte, and the length of the rest.
pub const HEADER_BYTES: usize = 2;

// The names in a bucket of a book: `bucket_size`.
pub const BUCKET_SIZE: usize = 8;
// The entries in a block that has a peak: `block_size`.
pub const BLOCK_SIZE: usize = 16;
// The most bytes of a trie node's label: `longest_label`.
pub const LONGEST_LABEL: usize = 7;

// The most entries that a completion can be asked for: `max_count`.
pub const MAX_COUNT: usize = 9;
// The bytes that a completion's destination must have for each entry asked for: `entry_room`.
pub const ENTRY_ROOM: usize = 53;
// How many entries the panel asks for: `panel_count`.
pub const PANEL_COUNT: usize = 5;
// The panel's keys that append µ and Ω: `key_bytes`; the keys of bytes 20 to 7E append these.
pub const KEY_MICRO: u8 = 0x80;

pub const KEY_OHM: u8 = 0x81;
// Its keys that append nothing: `acts`; key 0 only counts the rows again.
pub const KEY_UP: u8 = 0x01;

pub const KEY_DOWN: u8 = 0x02;

pub const KEY_ERASE: u8 = 0x08;

pub const KEY_TAKE: u8 = 0x0D;

// The columns of a page's line, and its bytes with the line feed: `page_columns`, `line_bytes`.
pub const PAGE_COLUMNS: usize = 40;

pub const PAGE_LINE: usize = PAGE_COLUMNS + 1;
// The columns of a page's line that a name has: `name_columns`.
pub const NAME_COLUMNS: usize = 28;

// Up to how many names a small table serves for a page. A whole one takes about 1 µs to clear, which is as long as a
// page of some twenty names.
pub const SMALL_TABLE: usize = 128;

// The length of each of the program's two buffers: `buffer_length`.
pub const BUFFER_LENGTH: usize = 57344;
// The bytes of a command line that are kept: `kept_bytes`.
pub const KEPT_BYTES: usize = 64;
// The most digits of a number in a command line or printed: `has_number`, `decimal`.
pub const MOST_DIGITS: usize = 10;
// The first number that is too high for a command line: `has_number`.
pub const NUMBERS_END: u64 = 4294967296;
// The bytes that the line of an entry offered may take, with its score, a space, its name and a line feed:
// `entry_line_room`.
pub const ENTRY_LINE_ROOM: usize = MOST_DIGITS + 1 + LONGEST_NAME + 1;
// The bytes that the line of the looks may take: `looks_line_room`.
pub const LOOKS_LINE_ROOM: usize = 6 + MOST_DIGITS + 1;
// The bytes that the lines of one command may take: `line_room`.
pub const LINE_ROOM: usize = MAX_COUNT * ENTRY_LINE_ROOM + LOOKS_LINE_ROOM;

// The bytes of a script's call before its name: kind, score, length of the name.
pub const CALL_HEAD: usize = 7;
// Where the length of the name stands in them.
pub const NAME_LENGTH_AT: usize = 5;
// The bytes that an answer is kept in: number, entries, bytes.
pub const KEPT_ANSWER: usize = 7;
