ghost use Rattle.std.specs.Prelude.{◌≡◌, length};
ghost use Rattle.reading.specs.Worked.{Stand, worked};

// How many worked readings there are. Each of them stands: the definitions answer what is expected.
pub fn worked_readings() -> u8
    ensures counts { result ≡ length worked }
    ensures stand { Stand worked }
{
    8
}
