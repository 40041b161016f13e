//! Laws of what is asked of worlds and of frames. The function does nothing; its contract is a law.

ghost use Rattle.world_queries.specs.Laws.{FramesShowTheirWorld};

/// The frame of a world shows just the shapes that can be seen in the world, in the same order. So a ray or a region
/// that is asked of the frame is answered as it would be in the world.
pub fn frames_show_their_world()
    ensures { FramesShowTheirWorld }
{}
