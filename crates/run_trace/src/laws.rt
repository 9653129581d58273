// Laws of traces: each contract is a fact, and the body is empty.
ghost use Rattle.run_trace.specs.Laws.{LawfulTraceIsTriangular, WrittenTraceReadsBack};
ghost use Rattle.run_trace.specs.Example.{AreWorkedTraces};

/// The written text of a trace reads as this trace, whatever stands behind it.
pub fn written_trace_reads_back()
    ensures { WrittenTraceReadsBack }
{}

/// The pairs of a lawful trace have an order in which they are triangular, whoever wrote it.
pub fn lawful_trace_is_triangular()
    ensures { LawfulTraceIsTriangular }
{}

/// The definitions worked on an example.
pub fn traces_are_worked()
    ensures { AreWorkedTraces }
{}
