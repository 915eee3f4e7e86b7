//! What is sound stays sound.
ghost use Rattle.life_laws.specs.Laws.{SoundIsKept, ReachedIsSound};

/// The law of preservation: for every state, hand and event, and so in every state that a list of
/// moves leads to from an opening.
pub fn sound_is_kept()
    ensures step { SoundIsKept }
    ensures always { ReachedIsSound }
{}
