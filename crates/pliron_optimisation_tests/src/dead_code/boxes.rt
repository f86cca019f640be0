//! Texts in which values of boxes are used outside by boxes that are erased one by one, each only after the
//! last, with what is left of each, as in `cases`.

pub static BOXES: &str = "\
boxes that die from the last to the first -- C func { b0(): box { b0(): r0 = read; r1 = read; r2 = read }; box { b0(): q0 = read; print r0; print q1 }; \
    box { b0(): q1 = read; print r1; print q2 }; box { b0(): q2 = read; print r2; print r2 }; ret } => func { b0(): ret }
boxes that use the reads in another order -- C func { b0(): box { b0(): r0 = read; r1 = read; r2 = read }; box { b0(): q0 = read; print r2; print q1 }; \
    box { b0(): q1 = read; print r1; print q2 }; box { b0(): q2 = read; print r0; print r0 }; ret } => func { b0(): ret }
the last box is used -- C func { b0(): box { b0(): r0 = read; r1 = read; r2 = read }; box { b0(): q0 = read; print r0; print q1 }; \
    box { b0(): q1 = read; print r1; print q2 }; box { b0(): q2 = read; print r2; print r2 }; ret q2 } \
    => func { b0(): box { b0(): v0 = read; v1 = read; v2 = read }; box { b0(): v3 = read; print v2; print v2 }; ret v3 }
the first box is used -- U func { b0(): box { b0(): r0 = read; r1 = read; r2 = read }; box { b0(): q0 = read; print r0; print q1 }; \
    box { b0(): q1 = read; print r1; print q2 }; box { b0(): q2 = read; print r2; print r2 }; ret q0 } \
    => func { b0(): box { b0(): v0 = read; v1 = read; v2 = read }; box { b0(): v3 = read; print v0; print v4 }; \
        box { b0(): v4 = read; print v1; print v5 }; box { b0(): v5 = read; print v2; print v2 }; ret v3 }
values of boxes in a box -- C func { b0(): box { b0(): box { b0(): r0 = read; r1 = read }; box { b0(): r2 = read } }; box { b0(): q0 = read; print r1; print q1 }; \
    box { b0(): q1 = read; print r2; print q2 }; box { b0(): q2 = read; print r0; print r0 }; ret } => func { b0(): ret }
a print between boxes in a box -- C func { b0(): box { b0(): box { b0(): r0 = read; r1 = read }; print r0; box { b0(): r2 = read } }; box { b0(): q0 = read; print r1; print q1 }; \
    box { b0(): q1 = read; print r2; print q1 }; ret } => func { b0(): ret }
a value of an inner box is used -- C func { b0(): box { b0(): box { b0(): r0 = read; r1 = read }; print r0 }; box { b0(): q0 = read; print r1; print q0 }; ret r0 } \
    => func { b0(): box { b0(): box { b0(): v0 = read; v1 = read }; print v0 }; ret v0 }
arguments of a box -- C func { b0(): box { b0(a0, a1, a2): ret a0 }; box { b0(): q0 = read; print a0; print q1 }; \
    box { b0(): q1 = read; print a1; print q2 }; box { b0(): q2 = read; print a2; print a2 }; ret } => func { b0(): ret }
constants among reads -- C func { b0(): box { b0(): p0 = read; p1 = read; k0 = const 1; k1 = const 2; k2 = const 3 }; box { b0(): q0 = read; print k0; print q1 }; \
    box { b0(): q1 = read; print k1; print q2 }; box { b0(): q2 = read; print k2; print k2 }; ret } => func { b0(): ret }
another read of the box is used -- C func { b0(): box { b0(): p0 = read; p1 = read; k0 = const 1; k1 = const 2 }; box { b0(): q0 = read; print k0; print q1 }; \
    box { b0(): q1 = read; print k1; print k1 }; print p1; ret } => func { b0(): box { b0(): v0 = read; v1 = read }; print v1; ret }
one value that each box uses, and its own box often -- C func { b0(): box { b0(): r = read; ret r r r }; box { b0(): q0 = read; print r; print q1 }; \
    box { b0(): q1 = read; print r; print q2 }; box { b0(): q2 = read; print r; print r }; ret } => func { b0(): ret }
the box that makes it comes last -- C func { b0(): box { b0(): q0 = read; print r; print q1 }; box { b0(): q1 = read; print r; print q2 }; box { b0(): q2 = read; print r; print r }; \
    box { b0(): r = read; ret r r r }; ret } => func { b0(): ret }
the box that makes it comes last, and is used -- C func { b0(): box { b0(): q0 = read; print r; print q1 }; box { b0(): q1 = read; print r; print r }; box { b0(): r = read; ret r r }; ret r } \
    => func { b0(): box { b0(): v0 = read; ret v0 v0 }; ret v0 }
";
