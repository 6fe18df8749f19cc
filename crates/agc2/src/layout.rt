// What a caller's declarations must agree with. The language has no size of a type, so these are written down; the C test measures them.
ghost use Rattle.std.specs.Prelude.{◌≡◌};
ghost use Rattle.agc2.specs.Layout.{layout};

// Sizes, and the places of what stands within, in bytes.
#[repr(C)]
#[derive(Clone, Copy)]
pub struct Agc2Layout {
    pub control_size: u32,
    pub control_state: u32,
    pub controller_size: u32,
    pub controller_control: u32,
    pub controller_predictor: u32,
    pub config_size: u32,
    pub record_size: u32,
    pub predictor_config_size: u32,
    pub metrics_size: u32,
}

pub fn agc2_layout_1() -> Agc2Layout
    ensures { result ≡ layout }
{
    Agc2Layout {
        control_size: 320,
        control_state: 8,
        controller_size: 6712,
        controller_control: 8,
        controller_predictor: 328,
        config_size: 44,
        record_size: 16,
        predictor_config_size: 24,
        metrics_size: 20,
    }
}
