//! The laws of replies that the layers above use. Nothing here is called at run time.

ghost use Rattle.repl_json.specs.Laws.{RepliesAreLines, MemoryIsMemoryLine, OnlyMemoryIsMemoryLine, BadBodiesAreReplies};

/// Each reply is one line with its end, where its body holds no line end.
pub fn replies_are_lines()
    ensures { RepliesAreLines }
{}

/// The reply to want of memory is the memory line `{"error":"memory","seq":N}`.
pub fn memory_is_memory_line()
    ensures { MemoryIsMemoryLine }
{}

/// No other reply is a memory line, where its body differs from one before the first number.
pub fn only_memory_is_memory_line()
    ensures { OnlyMemoryIsMemoryLine }
{}

/// The replies to lines that are no requests have such bodies.
pub fn bad_bodies_are_replies()
    ensures { BadBodiesAreReplies }
{}
