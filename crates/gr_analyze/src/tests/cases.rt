// Small formulas, decisions, and what the conflict teaches to which they lead.

/// Clauses have a zero behind their literals, as in DIMACS. Whichever clause is propagated first, the conflict teaches
/// the same, as a program found that plays all orders.
#[derive(Clone, Copy, Debug)]
pub(super) struct Case {
    pub(super) formula: &'static [i32],
    pub(super) decisions: &'static [i32],
    pub(super) clause: &'static [i32],
    /// The ids that are cited, ascending.
    pub(super) hints: &'static [u64],
    pub(super) lbd: u32,
    pub(super) back_to: u32,
}

pub(super) const CASES: [Case; 7] = [
    Case {
        formula: &[1, -2, 0, 1, 2, 3, 4, 0, 1, 2, 3, -4, 0],
        decisions: &[-1, -3],
        clause: &[3, 1],
        hints: &[1, 2, 3],
        lbd: 2,
        back_to: 1,
    },
    Case {
        formula: &[
            2, -7, -5, 0, 6, 0, 7, 2, 0, 3, 6, -1, 0, 2, -5, 8, 0, -7, -1, -6, 0, 7, -2, 0, 2, -4,
            0, -3, 7, 8, 0, 1, 0, 5, 3, 0, -7, -4, -1, 0, 4, -5, 7, 0,
        ],
        decisions: &[-2, -8, 5, -3],
        clause: &[],
        hints: &[2, 3, 6, 7, 10],
        lbd: 0,
        back_to: 0,
    },
    Case {
        formula: &[
            -4, -7, 3, 0, -8, -1, 5, 0, -4, 2, -5, -7, 0, -7, 5, -3, 8, 0, -6, 7, 1, 0, -7, 8, -2,
            1, 0, 6, -1, 0, -4, 8, 0, 6, 0, -5, -6, 0, -7, -8, 0, -3, 7, 0, -8, -3, -2, 0,
        ],
        decisions: &[8, -7, 2, 3],
        clause: &[-8],
        hints: &[2, 5, 9, 10, 11],
        lbd: 1,
        back_to: 0,
    },
    Case {
        formula: &[
            -1, -4, 7, 2, 0, 3, -6, -2, 0, -8, 7, -2, 0, 1, 6, 0, -7, -6, -3, 0, -8, 4, 0, 8, -2,
            4, -5, 0, 1, -8, 0, 2, -4, 3, 0, -3, 8, 6, 0,
        ],
        decisions: &[8, -7, 6, -2],
        clause: &[7, -8],
        hints: &[1, 3, 6, 8],
        lbd: 2,
        back_to: 1,
    },
    Case {
        formula: &[
            -4, 7, -1, -3, 0, -8, 6, 1, 0, 2, -3, 0, 4, 2, 3, 0, -7, -4, -5, 0, -6, 0, 1, -4, 6, 0,
            2, 0, 3, -5, -1, 0,
        ],
        decisions: &[4, 5, -7, -3],
        clause: &[-5, -4],
        hints: &[1, 5, 6, 7, 9],
        lbd: 2,
        back_to: 1,
    },
    Case {
        formula: &[
            2, 3, 0, 2, -5, 0, 1, 2, 0, -1, 4, 0, -8, -7, -3, 5, 0, -6, -1, 0, -5, 4, 0, 2, 6, 0,
            -4, 5, -2, 0, -3, 8, 0, -8, -5, 0, 3, 1, -6, -8, 0, 4, 8, 1, 0,
        ],
        decisions: &[-1, 6, 7, -5],
        clause: &[5, -7, -6, 1],
        hints: &[3, 5, 9, 12, 13],
        lbd: 4,
        back_to: 3,
    },
    Case {
        formula: &[
            -3, 6, 0, -5, 2, -7, 0, 8, -1, 5, 0, -4, 5, -6, -7, 0, -3, 6, -1, 0, 3, 8, -5, 0, -3,
            8, 0, 3, 1, 6, 0, 6, 2, 0, 7, 1, -4, 0, 4, -8, -2, 0, 7, 6, -5, 0,
        ],
        decisions: &[-8, 4, -3, 6],
        clause: &[-4, -6, 1, 5],
        hints: &[4, 10],
        lbd: 2,
        back_to: 1,
    },
];
