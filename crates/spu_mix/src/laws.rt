// Laws of the definitions.
ghost use Rattle.std.specs.Prelude.{ℕ, ◌≡◌, ◌≤◌, ◌<◌, ◌+◌, ◌-◌, ◌*◌, ◌/◌, ◌%◌, min, Bool, List, ◌∷◌, Some, All, length, map};
ghost use Rattle.port_history.specs.Past.{Happening, Mixed, sound_past};
ghost use Rattle.spu_mix.specs.Positions.{position_after, next_position};
ghost use Rattle.spu_mix.specs.Sides.{raised_left, raised_right, clamped};
ghost use Rattle.spu_mix.specs.Sounds.{SoundState, HasLoop};
ghost use Rattle.spu_mix.specs.Channels.{HasPosition};
ghost use Rattle.spu_mix.specs.Mixing.{channel_position, channel_after, sample_of};
ghost use Rattle.spu_mix.specs.Settings.{selected_sound, selected_channel, sounds_after, channels_after, frames_mixed, sample_at};
ghost use Rattle.spu_mix.specs.Stands.{SoundUnit, SoundStands};
ghost use Rattle.spu_mix.specs.Later.{SoundInClosedForm, PlayingHasSound, SamplesGoOn};
ghost use Rattle.spu_mix.specs.declared.channel.Channel.{Channel as AChannel};

/// The position after no sample is the position, and one sample more is one step.
#[tactic(auto, using(crate::proofs::Positions::position_none, crate::proofs::Positions::position_next))]
pub fn positions_go_step_by_step()
    ensures first { (looping : Bool) (loop_start loop_end count p : ℕ) → loop_start ≤ loop_end → loop_end < count → p < count →
        position_after looping loop_start loop_end count p 0 ≡ Some p }
    ensures next { (looping : Bool) (loop_start loop_end count p j : ℕ) → loop_start ≤ loop_end → loop_end < count → p < count →
        position_after looping loop_start loop_end count p (j + 1) ≡ next_position looping loop_start loop_end count
        (position_after looping loop_start loop_end count p j) }
{}

/// A channel after j samples and then k is the channel after j + k, and what it adds to sample j + k is
/// what it adds, after j samples, to sample k.
#[tactic(auto, using(crate::proofs::Frames::channel_twice, crate::proofs::Frames::position_twice))]
pub fn samples_follow_each_other()
    ensures channel { (sounds : List SoundState) (c : AChannel) (j k : ℕ) → All HasLoop sounds → HasPosition sounds c →
        channel_after sounds k (channel_after sounds j c) ≡ channel_after sounds (j + k) c }
    ensures position { (sounds : List SoundState) (c : AChannel) (j k : ℕ) → All HasLoop sounds → HasPosition sounds c →
        channel_position sounds (channel_after sounds j c) k ≡ channel_position sounds c (j + k) }
{}

/// Loops and positions always lie in their sounds.
#[tactic(auto, using(crate::proofs::Within::loops_within, crate::proofs::Within::positions_within))]
pub fn loops_and_positions_lie_in_sounds()
    ensures loops { (sounds : List (List ℕ)) (past : List Happening) → All (λ s. 0 < length s) sounds → All HasLoop (sounds_after sounds past) }
    ensures positions { (sounds : List (List ℕ)) (past : List Happening) → All (λ s. 0 < length s) sounds →
        All (HasPosition (sounds_after sounds past)) (channels_after sounds past) }
{}

/// After n frames and one more without a word, the channels are where 735 * (n + 1) samples take them at
/// once. After n frames without a word, sample k is the clamped sum of what the channels add to sample
/// 735 * n + k.
#[tactic(auto, using(crate::proofs::Frames::frames_together))]
pub fn frames_add_up()
    ensures frames { (sounds : List (List ℕ)) (past : List Happening) (n : ℕ) → All (λ s. 0 < length s) sounds →
        channels_after sounds (Mixed ∷ frames_mixed n past) ≡ map (channel_after (sounds_after sounds past) ((n + 1) * 735)) (channels_after sounds past) }
    ensures samples { (sounds : List (List ℕ)) (past : List Happening) (n k : ℕ) → All (λ s. 0 < length s) sounds →
        sample_at sounds (frames_mixed n past) k ≡ sample_of (sounds_after sounds past) (channels_after sounds past) (n * 735 + k) }
{}

/// While no word concerns a channel or the loop of its sound, the channel and the sample that it adds are told by its position before, its sound, and the
/// number of samples since. A channel that plays has a sound. While sound is told nothing, the samples of frames are the sums over the channels before.
pub fn sound_has_a_closed_form()
    ensures later { SoundInClosedForm }
    ensures sounding { PlayingHasSound }
    ensures samples { SamplesGoOn }
{}

/// The sound that is selected is there, where there are sounds, and so is the channel.
#[tactic(auto, using(crate::proofs::Selected::sound_exists, crate::proofs::Selected::channel_exists, crate::proofs::Selected::sixteen))]
pub fn what_is_selected_exists()
    ensures sound { (sounds : List (List ℕ)) (past : List Happening) → 0 < length sounds → selected_sound sounds past < length (sounds_after sounds past) }
    ensures channel { (sounds : List (List ℕ)) (past : List Happening) → selected_channel sounds past < length (channels_after sounds past) }
    ensures sixteen { (sounds : List (List ℕ)) (past : List Happening) → length (channels_after sounds past) ≡ 16 }
{}

/// What other devices are told or asked is nothing to sound: who stands for the part of a history that
/// concerns sound stands for all of it, and the reverse.
pub fn others_are_nothing_to_sound()
    ensures all { (sounds : List (List ℕ)) (past : List Happening) (unit : SoundUnit) → SoundStands sounds (sound_past past) unit
        → SoundStands sounds past unit }
    ensures ours { (sounds : List (List ℕ)) (past : List Happening) (unit : SoundUnit) → SoundStands sounds past unit
        → SoundStands sounds (sound_past past) unit }
{}

/// A side of a word is a signed number of 16 bits, raised by 32,768. A sum of sixteen raised sides is
/// 524,288 above the sum of the signed ones, and is clamped to -32,768 to 32,767, as 16 bits.
pub fn sides_are_signed_and_clamped()
    ensures left_plus { (word : ℕ) → word % 65536 < 32768 → raised_left word ≡ 32768 + word % 65536 }
    ensures left_minus { (word : ℕ) → 32768 ≤ word % 65536 → raised_left word + 65536 ≡ 32768 + word % 65536 }
    ensures right_plus { (word : ℕ) → word / 65536 < 32768 → raised_right word ≡ 32768 + word / 65536 }
    ensures right_minus { (word : ℕ) → 32768 ≤ word / 65536 → word / 65536 < 65536 → raised_right word + 65536 ≡ 32768 + word / 65536 }
    ensures above { (sum : ℕ) → clamped (524288 + sum) ≡ min 32767 sum }
    ensures below { (sum : ℕ) → 0 < sum → sum ≤ 524288 → clamped (524288 - sum) + min 32768 sum ≡ 65536 }
{}
