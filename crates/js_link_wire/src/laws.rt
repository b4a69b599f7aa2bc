//! What is proved of reading and writing together.

ghost use Rattle.std.specs.Prelude.{◌≡◌, ℕ, ◌<◌, ◌^◌, ◌++◌, List, length, true, Ok, None};
ghost use Rattle.std.specs.List.{list_all, AllByRecursion};
ghost use Rattle.js_base.specs.Headers.{is_sendable};
ghost use Rattle.js_base.specs.declared.headers.Header.{Header};
ghost use Rattle.js_link_wire.specs.declared.damage.Damage.{Damage};
ghost use Rattle.js_link_wire.specs.declared.frame.ServerFrame.{ServerFrame};
ghost use Rattle.js_link_wire.specs.declared.first_frame.Reading.TheVariants as readings;
ghost use Rattle.js_link_wire.specs.FrameReader.{AreRead};
ghost use Rattle.js_link_wire.specs.Headers.{read_block, IsReadable};
ghost use Rattle.js_link_wire.specs.FirstFrame.{read};
ghost use Rattle.js_link_wire.specs.ServerText.{server_text, IsFrame};
ghost use Rattle.js_link_wire.specs.declared.frame.ClientFrame.{ClientFrame};
ghost use Rattle.js_link_wire.specs.Written.{client_line, header_block, header_text, is_in_line, refusal, NumbersFit};

/// Bytes that follow a frame, or a damage, do not change what is read, so it does not matter how
/// bytes are cut.
pub fn cuts_do_not_matter()
    ensures whole { (most : ℕ) (bytes more : List ℕ) (frame : ServerFrame) (count : ℕ) → read most bytes ≡ readings.Whole frame count → read most (bytes ++ more) ≡ readings.Whole frame count }
    ensures damaged { (most : ℕ) (bytes more : List ℕ) (damage : Damage) → read most bytes ≡ readings.Damaged damage → read most (bytes ++ more) ≡ readings.Damaged damage }
{}

/// It does not matter in which pieces bytes come. Read frames from some bytes, and then from what is
/// left together with more: these are the frames of all the bytes together.
pub fn pieces_are_read_as_one()
    ensures { (most : ℕ) (bytes more left last : List ℕ) (frames others : List ServerFrame) → AreRead most bytes frames left → AreRead most (left ++ more) others last
        → AreRead most (bytes ++ more) (frames ++ others) last }
{}

/// What a server writes is read back as the same frame, whatever follows it.
pub fn frames_are_read_again()
    ensures { (most : ℕ) (frame : ServerFrame) (rest : List ℕ) → most < 2 ^ 64 → IsFrame most frame → read most (server_text frame ++ rest) ≡ readings.Whole frame (length (server_text frame)) }
{}

/// Headers that are written are read back the same, if their texts are UTF-8 and no value begins
/// with white space.
pub fn headers_are_read_again()
    ensures { (headers : List Header) → is_sendable headers ≡ true → AllByRecursion IsReadable headers → read_block (header_block headers) ≡ Ok (record { status = None; description = None; headers = headers }) }
{}

/// No text of a client can add a line of its own. If a frame is not refused, its line and the lines
/// of its headers contain no carriage return and no line feed.
pub fn lines_stay_whole()
    ensures line { (frame : ClientFrame) → NumbersFit frame → refusal frame ≡ None → is_in_line (client_line frame) ≡ true }
    ensures headers { (headers : List Header) → is_sendable headers ≡ true → list_all (λ header. is_in_line (header_text header)) headers ≡ true }
{}
