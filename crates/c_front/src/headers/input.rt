// input.h: the gamepads.

pub const INPUT: &str = "\
#ifndef INPUT_H
#define INPUT_H

void select_gamepad(int n)
{
    port_out(INP_SelectedGamepad, n);
}

bool gamepad_is_connected()
{
    return port_in(INP_GamepadConnected) != 0;
}

// frames for which a control has been down, or the negative of those for which it has been up

int gamepad_left()
{
    return port_in(INP_GamepadLeft);
}

int gamepad_right()
{
    return port_in(INP_GamepadRight);
}

int gamepad_up()
{
    return port_in(INP_GamepadUp);
}

int gamepad_down()
{
    return port_in(INP_GamepadDown);
}

int gamepad_button_start()
{
    return port_in(INP_GamepadButtonStart);
}

int gamepad_button_a()
{
    return port_in(INP_GamepadButtonA);
}

int gamepad_button_b()
{
    return port_in(INP_GamepadButtonB);
}

int gamepad_button_x()
{
    return port_in(INP_GamepadButtonX);
}

int gamepad_button_y()
{
    return port_in(INP_GamepadButtonY);
}

int gamepad_button_l()
{
    return port_in(INP_GamepadButtonL);
}

int gamepad_button_r()
{
    return port_in(INP_GamepadButtonR);
}

#endif
";
