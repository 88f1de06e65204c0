//! What holds of every floor, as a law.

ghost use Rattle.std.specs.Prelude.{◌≡◌, List, length};
ghost use Rattle.df_config.specs.ConfigForm.{IsConfig};
ghost use Rattle.df_config.specs.declared.config.Config.{Config};
ghost use Rattle.df_ticks.specs.declared.tick.Tick.{Tick};
ghost use Rattle.df_floor.specs.Brains.{floor_brains};
ghost use Rattle.df_floor.specs.Starting.{floor_start};

/// There are as many brains as roots.
pub fn each_root_has_a_brain()
    ensures { (c : Config) (ticks : List Tick) → IsConfig c →
        length (floor_brains c ticks) ≡ length (floor_start c) }
{}
