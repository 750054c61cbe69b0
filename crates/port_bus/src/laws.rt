// Laws of the answers.
ghost use Rattle.std.specs.Prelude.{◌≡◌, ◌∷◌, ◌||◌, ℕ, List, true, false};
ghost use Rattle.run_files.specs.declared.pads.PadEvent.{PadEvent};
ghost use Rattle.run_files.specs.Script.{Script, IsScript, is_connected};
ghost use Rattle.port_history.specs.Past.{Asked, Happening, Mixed, Told, is_graphics_port, is_sound_port};
ghost use Rattle.port_bus.specs.Controls.{control_word};
ghost use Rattle.port_bus.specs.FrameRule.{FollowsRule};
ghost use Rattle.port_bus.specs.Stand.{DevicesStand};
ghost use Rattle.port_bus.specs.State.{Facts, State};

/// The words of a control, frame by frame, follow the rule of a frame.
pub fn controls_follow_the_rule()
    ensures rule { (events : List PadEvent) (pad control : ℕ) → FollowsRule events pad control }
{}

/// The controls of a gamepad that is not connected answer -3,600 in every frame.
pub fn pads_that_are_not_connected_stay_up()
    ensures word { (script : Script) (n pad control : ℕ) → IsScript script → is_connected script.connected pad ≡ false
        → control_word script.events n pad control ≡ 0xFFFF_F1F0 }
{}

/// What the devices stand for goes on where a port of graphics or of sound is asked or told a word, and where samples are mixed.
pub fn other_events_leave_devices()
    ensures asked { (script : Script) (facts : Facts) (past : List Happening) (d : State) (port : ℕ) → is_graphics_port port || is_sound_port port ≡ true →
        DevicesStand script facts past d → DevicesStand script facts (Asked port ∷ past) d }
    ensures told { (script : Script) (facts : Facts) (past : List Happening) (d : State) (port word : ℕ) → is_graphics_port port || is_sound_port port ≡ true →
        DevicesStand script facts past d → DevicesStand script facts (Told port word ∷ past) d }
    ensures mixed { (script : Script) (facts : Facts) (past : List Happening) (d : State) → DevicesStand script facts past d →
        DevicesStand script facts (Mixed ∷ past) d }
{}
