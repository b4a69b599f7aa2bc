//! What is proved of receiving.

ghost use Rattle.std.specs.Prelude.{◌≡◌, ◌≢◌, ℕ, ◌++◌, List, Some, Ok, Err};
ghost use Rattle.js_link_wire.specs.declared.damage.Damage.{Damage};
ghost use Rattle.js_link_wire.specs.declared.frame.ServerFrame.{ServerFrame};
ghost use Rattle.js_link_wire.specs.FrameReader.{next_frame, AreRead};
ghost use Rattle.js_link_connection.specs.declared.connection.Connection.{Connection};
ghost use Rattle.js_link_connection.specs.Delivery.{TakesAll};

/// It does not matter in which pieces bytes come. Read frames from some bytes, and then from what is
/// left together with more: these are the frames of all the bytes together, and taking them in two
/// steps does the same as taking them at once. Reading some bytes, up to where no frame begins,
/// gives only these frames.
pub fn pieces_are_received_as_one()
    ensures read { (most : ℕ) (bytes more left last : List ℕ) (frames others : List ServerFrame) → AreRead most bytes frames left → AreRead most (left ++ more) others last
        → AreRead most (bytes ++ more) (frames ++ others) last }
    ensures takes { (frames others : List ServerFrame) (first middle last : Connection) → TakesAll frames first middle → TakesAll others middle last → TakesAll (frames ++ others) first last }
    ensures alone { (most : ℕ) (bytes left last : List ℕ) (frames others : List ServerFrame) → AreRead most bytes frames left → AreRead most bytes others last
        → ((frame : ServerFrame) (rest : List ℕ) → next_frame most left ≢ Ok (Some (frame, rest))) → ((frame : ServerFrame) (rest : List ℕ) → next_frame most last ≢ Ok (Some (frame, rest)))
        → (frames ≡ others) × (left ≡ last) }
{}

/// Bytes that follow a damage do not matter: nothing is read, however many more come.
pub fn damage_stays()
    ensures { (most : ℕ) (left more : List ℕ) (damage : Damage) → next_frame most left ≡ Err damage → next_frame most (left ++ more) ≡ Err damage }
{}
