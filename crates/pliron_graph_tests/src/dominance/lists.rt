//! Children and dominators on worked graphs: of each reached node its children in the order in which a search that
//! takes the first successor first comes to them, then its dominators from it up.

/// The graphs of `worked.rt`.
pub static FORWARDS: &str = "\
children and dominators, a diamond -- children and dominators: 1 2;3;3;; => 0: 1 3 2 / 0; 1: / 1 0; 2: / 2 \
    0; 3: / 3 0;
children and dominators, a loop -- children and dominators: 1;2;1 3;; => 0: 1 / 0; 1: 2 / 1 0; 2: 3 / 2 1 0; \
    3: / 3 2 1 0;
children and dominators, an unreached node -- children and dominators: 1;;1; => 0: 1 / 0; 1: / 1 0;
children and dominators, a node that leads to itself -- children and dominators: 0; => 0: / 0;
children and dominators, no nodes -- children and dominators:  =>
children and dominators, an irreducible graph -- children and dominators: 1 2;3;4;4;3; => 0: 1 3 4 2 / 0; 1: \
    / 1 0; 2: / 2 0; 3: / 3 0; 4: / 4 0;
children and dominators, a larger irreducible graph -- children and dominators: 1 2;3;4 5;4;3 5;4; => 0: 1 3 \
    4 5 2 / 0; 1: / 1 0; 2: / 2 0; 3: / 3 0; 4: / 4 0; 5: / 5 0;
children and dominators, thirteen nodes -- children and dominators: 1 2 3;4;1 4 5;6 7;12;8;9;9 10;5 \
    11;11;9;0 9;8; => 0: 1 4 8 5 11 9 2 3 / 0; 1: / 1 0; 2: / 2 0; 3: 6 7 / 3 0; 4: 12 / 4 0; 5: / 5 0; 6: / \
    6 3 0; 7: 10 / 7 3 0; 8: / 8 0; 9: / 9 0; 10: / 10 7 3 0; 11: / 11 0; 12: / 12 4 0;";

/// The same of reverse graphs, whose entry is a sentinel.
pub static BACKWARDS: &str = "\
reverse children and dominators, a diamond -- reverse children and dominators: 1 2;3;3;; => sentinel: 3 / \
    sentinel; 0: / 0 3 sentinel; 1: / 1 3 sentinel; 2: / 2 3 sentinel; 3: 1 0 2 / 3 sentinel;
reverse children and dominators, a loop -- reverse children and dominators: 1;2;1 3;; => sentinel: 3 / \
    sentinel; 0: / 0 1 2 3 sentinel; 1: 0 / 1 2 3 sentinel; 2: 1 / 2 3 sentinel; 3: 2 / 3 sentinel;";
