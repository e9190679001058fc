//! Worked lines, which the checker computes. Nothing here is called at run time.

ghost use Rattle.std.specs.Prelude.{◌≡◌, codes, None, Some, [], true, false};
ghost use Rattle.repl_json.specs.Bad.{bad_body};
ghost use Rattle.repl_json.specs.Reply.{text, body_text};
ghost use Rattle.repl_json.specs.declared.reply.Line.TheVariants as line;
ghost use Rattle.repl_json.specs.declared.request.Bad.TheVariants as bad;

/// The bytes of replies with one number and with two.
fn replies_compute()
    ensures one { body_text (record { first = codes "{\"seq\":"; second = codes "}"; third = []; id_first = false }) 12 None ≡ codes "{\"seq\":12}\n" }
    ensures id_first { body_text (record { first = codes "{\"id\":"; second = codes ",\"seq\":"; third = codes "}"; id_first = true }) 12 (Some 3) ≡ codes "{\"id\":3,\"seq\":12}\n" }
    ensures id_last { body_text (record { first = codes "{\"seq\":"; second = codes ",\"stateId\":"; third = codes "}"; id_first = false }) 12 (Some 3) ≡ codes "{\"seq\":12,\"stateId\":3}\n" }
{}

/// The bytes of the replies that need no work.
fn lines_compute()
    ensures ahead { text (line.Ahead 3 4) ≡ codes "{\"error\":\"ahead\",\"length\":3,\"seq\":4}\n" }
    ensures env { text (line.UnknownEnv 3 4) ≡ codes "{\"error\":\"unknownEnv\",\"id\":3,\"seq\":4}\n" }
    ensures state { text (line.UnknownState 3 4) ≡ codes "{\"error\":\"unknownState\",\"id\":3,\"seq\":4}\n" }
    ensures deleted { text (line.Deleted 3 4) ≡ codes "{\"deleted\":3,\"seq\":4}\n" }
    ensures reset { text (line.Reset 3 4) ≡ codes "{\"deleted\":3,\"seq\":4}\n" }
    ensures stat { text (line.Stat 1 2 3 4) ≡ codes "{\"envs\":1,\"live\":2,\"seq\":3,\"states\":4}\n" }
    ensures memory { text (line.Memory 4) ≡ codes "{\"error\":\"memory\",\"seq\":4}\n" }
{}

/// The bytes of the replies to lines that are no requests.
fn refusals_compute()
    ensures long { body_text (bad_body (bad.LineTooLong 65537)) 4 None ≡ codes "{\"error\":\"lineTooLong\",\"length\":65537,\"seq\":4}\n" }
    ensures json { body_text (bad_body bad.Json) 4 None ≡ codes "{\"error\":\"json\",\"seq\":4}\n" }
    ensures command { body_text (bad_body bad.Command) 4 None ≡ codes "{\"error\":\"command\",\"seq\":4}\n" }
    ensures field { body_text (bad_body (bad.Field (codes "after"))) 4 None ≡ codes "{\"error\":\"field\",\"field\":\"after\",\"seq\":4}\n" }
{}
