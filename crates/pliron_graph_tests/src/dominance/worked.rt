//! Worked graphs: of each node its immediate dominator, `-` for the entry and `?` where it isn't reached.

/// The irreducible graphs are those of Cooper, Harvey and Kennedy; the one of thirteen nodes is that of Lengauer and
/// Tarjan, with R, A, .., L as 0, 1, .., 12.
pub static FORWARDS: &str = "\
immediate dominators, a diamond -- immediate dominators: 1 2;3;3;; => 0=- 1=0 2=0 3=0
immediate dominators, a loop -- immediate dominators: 1;2;1 3;; => 0=- 1=0 2=1 3=2
immediate dominators, an unreached node -- immediate dominators: 1;;1; => 0=- 1=0 2=?
immediate dominators, a node that leads to itself -- immediate dominators: 0; => 0=-
immediate dominators, no nodes -- immediate dominators:  =>
immediate dominators, an irreducible graph -- immediate dominators: 1 2;3;4;4;3; => 0=- 1=0 2=0 3=0 4=0
immediate dominators, a larger irreducible graph -- immediate dominators: 1 2;3;4 5;4;3 5;4; => 0=- 1=0 2=0 \
    3=0 4=0 5=0
immediate dominators, thirteen nodes -- immediate dominators: 1 2 3;4;1 4 5;6 7;12;8;9;9 10;5 11;11;9;0 9;8; \
    => 0=- 1=0 2=0 3=0 4=0 5=0 6=3 7=3 8=0 9=0 10=7 11=0 12=4";

/// The same of reverse graphs, whose entry is a sentinel: dominance by what every way to the end passes.
pub static BACKWARDS: &str = "\
reverse immediate dominators, a diamond -- reverse immediate dominators: 1 2;3;3;; => sentinel=- 0=3 1=3 2=3 \
    3=sentinel
reverse immediate dominators, two ends -- reverse immediate dominators: 1 2;3;;; => sentinel=- 0=sentinel \
    1=3 2=sentinel 3=sentinel
reverse immediate dominators, a loop -- reverse immediate dominators: 1;2;1 3;; => sentinel=- 0=1 1=2 2=3 \
    3=sentinel
reverse immediate dominators, a ring -- reverse immediate dominators: 1;0; => sentinel=- 0=1 1=sentinel";
