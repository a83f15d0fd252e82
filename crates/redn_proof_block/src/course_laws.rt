//! The law of a chain's graph in rings. A call does nothing.

ghost use Rattle.redn_proof_block.specs.CourseLaws.{CoursesAllow, CoursesTurn, CoursesBegin, CoursesAreScript};

/// By each opcode that its slot may have, a draft keeps to its sides and to the rights of their
/// regions, reads only tables, changes no descriptor, and shows nothing unless it is the event's.
/// From its entry on, a ring's segments make the graph's steps, whatever tables each of them sees,
/// and lead to the entry of the ring of the block where the graph goes on. Where a graph begins in a
/// memory, its ring is entered there. So the windows of the rings follow one another.
pub fn courses_allow()
    ensures allows { CoursesAllow }
    ensures turn { CoursesTurn }
    ensures begin { CoursesBegin }
    ensures script { CoursesAreScript }
{}
