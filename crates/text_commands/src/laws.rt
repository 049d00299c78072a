//! A law of lessons and verdicts.
ghost use Rattle.std.specs.Prelude.{◌≡◌, ℕ, List, length};
ghost use Rattle.peers_msg.specs.Spelling.{stream_of};
ghost use Rattle.peers_msg.specs.declared.message.Message.{Message};
ghost use Rattle.price_checker.specs.declared.verdict.Verdict.{Verdict};
ghost use Rattle.price_checker.specs.declared.verdict.Verdict.TheVariants as verdicts;
ghost use Rattle.node_text.specs.declared.scenes.Scene.{Scene};
ghost use Rattle.text_commands.specs.Checking.{IsVerdict};
ghost use Rattle.text_commands.specs.Settings.{prices_of, start_of};
ghost use Rattle.text_commands.specs.Teaching.{IsLesson};

/// Proves that the lesson of a scene passes `check`: if another scene has the same start and the same updates, and the
/// lesson's stream and prices, then the verdict on it is *shortest*, with the number of the stream's bytes.
pub fn taught_lessons_are_shortest()
    ensures { (scene checked : Scene) (messages : List Message) (prices : List ℕ) (verdict : Verdict) →
        IsLesson scene messages prices → start_of checked ≡ start_of scene →
        checked.updates.items ≡ scene.updates.items → checked.stream.items ≡ stream_of messages → prices_of checked ≡ prices →
        IsVerdict checked verdict → verdict ≡ verdicts.Shortest (length (stream_of messages)) }
{}
