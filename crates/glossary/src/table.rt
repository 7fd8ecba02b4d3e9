// The glossary's table: a row for each set of levels by which a record is of a kind, those of a kind together, the kinds in the
// tally's order. A text is filled up with spaces.
use crate::Level::{Any, High, Low};
use crate::Row;

pub(crate) const ROWS: [Row; 28] = [
    Row {
        kind: 0,
        name: *b"MRS      ",
        levels: [High, High, Any, Low, Low, Low, Low, Any],
        meaning: *b"writes the mode register that BA names              ",
    },
    Row {
        kind: 1,
        name: *b"REF      ",
        levels: [High, High, Any, Low, Low, Low, High, Any],
        meaning: *b"refresh                                             ",
    },
    Row {
        kind: 2,
        name: *b"PRE      ",
        levels: [High, High, Any, Low, Low, High, Low, Low],
        meaning: *b"precharge of one bank                               ",
    },
    Row {
        kind: 3,
        name: *b"PREA     ",
        levels: [High, High, Any, Low, Low, High, Low, High],
        meaning: *b"precharge of all banks                              ",
    },
    Row {
        kind: 4,
        name: *b"ACT      ",
        levels: [High, High, Any, Low, Low, High, High, Any],
        meaning: *b"opens a row of a bank                               ",
    },
    Row {
        kind: 5,
        name: *b"WR       ",
        levels: [High, High, Any, Low, High, Low, Low, Low],
        meaning: *b"write                                               ",
    },
    Row {
        kind: 6,
        name: *b"WRA      ",
        levels: [High, High, Any, Low, High, Low, Low, High],
        meaning: *b"write with auto precharge                           ",
    },
    Row {
        kind: 7,
        name: *b"RD       ",
        levels: [High, High, Any, Low, High, Low, High, Low],
        meaning: *b"read                                                ",
    },
    Row {
        kind: 8,
        name: *b"RDA      ",
        levels: [High, High, Any, Low, High, Low, High, High],
        meaning: *b"read with auto precharge                            ",
    },
    Row {
        kind: 9,
        name: *b"ZQCL     ",
        levels: [High, High, Any, Low, High, High, Low, High],
        meaning: *b"long ZQ calibration                                 ",
    },
    Row {
        kind: 10,
        name: *b"ZQCS     ",
        levels: [High, High, Any, Low, High, High, Low, Low],
        meaning: *b"short ZQ calibration                                ",
    },
    Row {
        kind: 11,
        name: *b"NOP      ",
        levels: [High, High, Any, Low, High, High, High, Any],
        meaning: *b"no operation                                        ",
    },
    Row {
        kind: 12,
        name: *b"DES      ",
        levels: [High, High, Any, High, Any, Any, Any, Any],
        meaning: *b"deselected                                          ",
    },
    Row {
        kind: 13,
        name: *b"SRE      ",
        levels: [High, Low, Any, Low, Low, Low, High, Any],
        meaning: *b"self-refresh entry: CKE falls with the pins of a REF",
    },
    Row {
        kind: 14,
        name: *b"SRX      ",
        levels: [Low, High, High, Low, High, High, High, Any],
        meaning: *b"self-refresh exit: CKE rises with a NOP or a DES    ",
    },
    Row {
        kind: 14,
        name: *b"SRX      ",
        levels: [Low, High, High, High, Any, Any, Any, Any],
        meaning: *b"self-refresh exit: CKE rises with a NOP or a DES    ",
    },
    Row {
        kind: 15,
        name: *b"IGNORED  ",
        levels: [Low, Low, Any, Any, Any, Any, Any, Any],
        meaning: *b"CKE stays low: the pins are ignored                 ",
    },
    Row {
        kind: 16,
        name: *b"FORBIDDEN",
        levels: [High, Low, Any, Low, Low, Low, Low, Any],
        meaning: *b"any other CKE change: rule 1                        ",
    },
    Row {
        kind: 16,
        name: *b"FORBIDDEN",
        levels: [High, Low, Any, Low, Low, High, Any, Any],
        meaning: *b"any other CKE change: rule 1                        ",
    },
    Row {
        kind: 16,
        name: *b"FORBIDDEN",
        levels: [High, Low, Any, Low, High, Low, Any, Any],
        meaning: *b"any other CKE change: rule 1                        ",
    },
    Row {
        kind: 16,
        name: *b"FORBIDDEN",
        levels: [High, Low, Any, Low, High, High, Low, Any],
        meaning: *b"any other CKE change: rule 1                        ",
    },
    Row {
        kind: 16,
        name: *b"FORBIDDEN",
        levels: [Low, High, Any, Low, Low, Any, Any, Any],
        meaning: *b"any other CKE change: rule 1                        ",
    },
    Row {
        kind: 16,
        name: *b"FORBIDDEN",
        levels: [Low, High, Any, Low, High, Low, Any, Any],
        meaning: *b"any other CKE change: rule 1                        ",
    },
    Row {
        kind: 16,
        name: *b"FORBIDDEN",
        levels: [Low, High, Any, Low, High, High, Low, Any],
        meaning: *b"any other CKE change: rule 1                        ",
    },
    Row {
        kind: 17,
        name: *b"PDE      ",
        levels: [High, Low, Any, Low, High, High, High, Any],
        meaning: *b"power-down entry: CKE falls with a NOP or a DES     ",
    },
    Row {
        kind: 17,
        name: *b"PDE      ",
        levels: [High, Low, Any, High, Any, Any, Any, Any],
        meaning: *b"power-down entry: CKE falls with a NOP or a DES     ",
    },
    Row {
        kind: 18,
        name: *b"PDX      ",
        levels: [Low, High, Low, Low, High, High, High, Any],
        meaning: *b"power-down exit: CKE rises with a NOP or a DES      ",
    },
    Row {
        kind: 18,
        name: *b"PDX      ",
        levels: [Low, High, Low, High, Any, Any, Any, Any],
        meaning: *b"power-down exit: CKE rises with a NOP or a DES      ",
    },
];
