// The settings that the other calls receive: document 01's, and the test that each of them makes.
ghost use Rattle.std.specs.Prelude.{◌≡◌};
ghost use Rattle.settings.specs.Settings.{usual, settings_refusal};

use crate::answers::refusal_number;
use settings::Settings;

// Document 01's numbers.
pub fn eml_usual_settings() -> Settings
    ensures { result ≡ usual }
{
    settings::usual()
}

// 14 where a number is outside its range, or 0.
pub fn eml_test_settings(settings: Settings) -> u8
    ensures { result ≡ settings_refusal settings }
{
    refusal_number(settings.test())
}
